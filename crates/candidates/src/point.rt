// A point: a candidate at one boundary, any boundary.
ghost use Rattle.std.specs.Prelude.{◌≡◌};
ghost use Rattle.candidates.specs.Candidates.{point_reason, point_at};
ghost use Rattle.candidates.specs.PointLaws.{Heard, Stretched};

use crate::candidate::{Candidate, Reason};
use crate::context::Context;
use crate::pause;
use candidate_costs::{cost, stretch};

// At or below this level a point is quiet.
const QUIET_LEVEL: f64 = 0.25;

// Why a point at boundary k is cut there.
fn point_reason(x: Context, silences: &[u32], levels: &[f64], k: usize) -> Reason
    requires { Heard x silences.now levels.now k }
    ensures { result ≡ point_reason x silences.now levels.now k }
{
    if pause::in_pause(x, silences, k) {
        Reason::Silence
    } else if levels[k] <= QUIET_LEVEL {
        Reason::Quiet
    } else {
        Reason::Forced
    }
}

// The point at boundary k.
// `runs` has for each frame the length of its quiet stretch, `levels` the level at each boundary.
pub fn point(x: Context, silences: &[u32], runs: &[u32], levels: &[f64], k: usize) -> Candidate
    requires heard { Heard x silences.now levels.now k }
    requires stretched { Stretched runs.now k }
    ensures { result ≡ point_at x silences.now runs.now levels.now k }
{
    let secs = stretch::secs_of(x.frame_secs, stretch::stretch_at(runs, k));
    Candidate {
        left: k,
        right: k,
        cost: cost::cut_cost(x.weights, levels[k], secs),
        reason: point_reason(x, silences, levels, k),
    }
}
