// A silence's own candidate.
ghost use Rattle.std.specs.Prelude.{◌≡◌};
ghost use Rattle.candidates.specs.Candidates.{own_at};
ghost use Rattle.candidates.specs.PointLaws.{Cuttable};

use crate::candidate::{Candidate, Reason};
use crate::context::Context;
use candidate_costs::{cost, stretch};
use candidate_cuts::cut;
use candidate_span::listed;

// The own candidate of silence i, which has sound on both sides.
pub fn own(x: Context, silences: &[u32], levels: &[f64], i: usize) -> Candidate
    requires { Cuttable x silences.now levels.now i }
    ensures { result ≡ own_at x silences.now levels.now i }
{
    let start = listed::start_at(silences, i);
    let end = listed::end_at(silences, i);
    let c = cut::silence_cut(x.gap, x.placement, x.padding, levels, start, end);
    let secs = stretch::secs_of(x.frame_secs, (end - start) as u32);
    Candidate {
        left: c.left,
        right: c.right,
        cost: cost::cut_cost(x.weights, c.level, secs),
        reason: Reason::Silence,
    }
}
