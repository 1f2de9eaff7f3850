// How far a piece can reach.
ghost use Rattle.std.specs.Prelude.{◌≡◌};
ghost use Rattle.grid.specs.BoundaryLaws.{Accepted};
ghost use Rattle.completion_reach.specs.Reachable.{reachable_of};

use grid::FrameGrid;

// Last frame boundary from `from` to `end` within `limit` samples of `from`.
pub fn reachable(g: FrameGrid, from: usize, end: usize, limit: u64) -> usize
    requires { Accepted g }
    ensures { result ≡ reachable_of g limit from end }
{
    let start = g.position(from);
    let mut low = from;
    let mut high = end;
    // By hand: `partition_point` seeks in a slice, and the boundaries between stand in none.
    while low < high {
        // above low, so that the range shrinks either way
        let middle = high - (high - low) / 2;
        if g.position(middle) - start <= limit {
            low = middle;
        } else {
            high = middle - 1;
        }
    }
    low
}
