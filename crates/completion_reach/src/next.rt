// One step of the division that goes as far as it can.
ghost use Rattle.std.specs.Prelude.{◌≡◌};
ghost use Rattle.candidate_span.specs.Span.{span_in};
ghost use Rattle.completion_reach.specs.GroundLaws.{Founded};
ghost use Rattle.completion_reach.specs.Next.{next_cut_of};

use crate::ground::Ground;
use crate::place::HeldCut;
use crate::{place, reachable};

// Where the piece that starts at a boundary ends: at the span's end, nowhere within the limit, or at a cut.
// Three ways with names of their own; neither of the first two is an error or the lack of a value.
#[derive(Clone, Copy)]
pub enum Next {
    Whole,
    Stuck,
    To(HeldCut),
}

// The farthest cut for a piece from boundary `at`, within `limit` samples.
pub fn next_cut(x: Ground, silences: &[u32], at: usize, limit: u64) -> Next
    requires { Founded x silences.now }
    ensures { result
        ≡ next_cut_of x.grid (span_in x.gap x.padding x.span silences.now) limit at }
{
    let k = reachable::reachable(x.grid, at, x.span.last, limit);
    if k == x.span.last {
        return Next::Whole;
    }
    if k == at {
        return Next::Stuck;
    }
    Next::To(place::place_at(x, silences, k))
}
