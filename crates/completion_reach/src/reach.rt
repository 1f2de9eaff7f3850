// The reach: the least limit, at or above the maximum, that leaves few enough pieces.
ghost use Rattle.candidate_span.specs.Span.{span_in};
ghost use Rattle.completion_reach.specs.GroundLaws.{Founded};
ghost use Rattle.completion_reach.specs.Reach.{reach_of};
ghost use Rattle.completion_reach.specs.ReachLaws.{Bracket};
ghost use Rattle.division.specs.Division.{pieces_asked};
ghost use Rattle.division.specs.Reach.{IsReach};
ghost use Rattle.std.specs.Prelude.{◌≡◌, ◌<◌};

use crate::fits;
use crate::ground::Ground;
use candidate_span::kept;

// The reach, between a maximum that is too low and a limit that is enough.
fn bisect(
    x: Ground,
    silences: &[u32],
    count: usize,
    pieces: usize,
    maximum: u64,
    enough: u64,
) -> u64
    requires founded { Founded x silences.now }
    requires pieces_value { pieces ≡ pieces_asked (span_in x.gap x.padding x.span silences.now) count }
    requires bracket { Bracket x.grid (span_in x.gap x.padding x.span silences.now)
        count maximum maximum enough }
    ensures { IsReach x.grid (span_in x.gap x.padding x.span silences.now)
        count maximum result }
{
    let mut low = maximum;
    let mut high = enough;
    // By hand: `partition_point` seeks in a slice, and the limits between stand in none.
    while low + 1 < high {
        let middle = low + (high - low) / 2;
        if fits::fits(x, silences, pieces, middle) {
            high = middle;
        } else {
            low = middle;
        }
    }
    high
}

// The reach for so many pieces as are asked for.
pub fn reach(x: Ground, silences: &[u32], count: usize, maximum: u64) -> u64
    requires founded { Founded x silences.now }
    requires count_nonzero { 0 < count }
    ensures { result
        ≡ reach_of x.grid (span_in x.gap x.padding x.span silences.now) count maximum }
{
    let frames = kept::kept_frames(x.gap, x.padding, x.span.first, x.span.last, silences);
    let pieces = count.min(frames);
    if fits::fits(x, silences, pieces, maximum) {
        return maximum;
    }
    // a limit as long as the span divides it, into one piece
    let whole = x.grid.position(x.span.last) - x.grid.position(x.span.first);
    bisect(x, silences, count, pieces, maximum, whole)
}
