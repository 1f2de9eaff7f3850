// Whether a boundary lies in silence beyond the padding.
ghost use Rattle.std.specs.Prelude.{◌≡◌};
ghost use Rattle.candidate_span.specs.ListedLaws.{Listed};
ghost use Rattle.candidates.specs.Candidates.{in_pause};

use crate::context::Context;
use candidate_span::{bounds, ending, listed};

// Whether boundary k lies within the padded bounds of a silence.
pub fn in_pause(x: Context, silences: &[u32], k: usize) -> bool
    requires { Listed x.padding.frames silences.now }
    ensures { result ≡ in_pause x silences.now k }
{
    let i = ending::first_ending(silences, k);
    if silences.len() / 2 <= i {
        return false;
    }
    let start = listed::start_at(silences, i);
    let end = listed::end_at(silences, i);
    let b = bounds::silence_bounds(x.padding, start, end);
    b.lo <= k && k <= b.hi
}
