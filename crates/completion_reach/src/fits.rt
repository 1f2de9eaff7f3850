// Whether a limit leaves few enough pieces.
ghost use Rattle.std.specs.Prelude.{◌≡◌};
ghost use Rattle.candidate_span.specs.Span.{span_in};
ghost use Rattle.completion_reach.specs.GroundLaws.{Founded};
ghost use Rattle.completion_reach.specs.Fits.{fits_of};

use crate::ground::Ground;
use crate::next;
use crate::next::Next;

// Whether going as far as one can at each step takes at most `pieces` pieces.
// No cut is written: the search for the reach asks this many times.
pub fn fits(x: Ground, silences: &[u32], pieces: usize, limit: u64) -> bool
    requires { Founded x silences.now }
    ensures { result
        ≡ fits_of x.grid (span_in x.gap x.padding x.span silences.now) limit pieces }
{
    let mut at = x.span.first;
    for _ in 0..pieces {
        match next::next_cut(x, silences, at, limit) {
            Next::Whole => return true,
            Next::Stuck => return false,
            Next::To(cut) => at = cut.right,
        }
    }
    false
}
