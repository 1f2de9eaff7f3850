// Completion by length: only the boundaries needed to bridge what is longer than the maximum between one candidate and
// the next, as marks in work memory.
ghost use Rattle.std.specs.Prelude.{◌≡◌};
ghost use Rattle.completion.specs.Bridge.{bridge_of};
ghost use Rattle.completion_reach.specs.Cuts.{marking};
ghost use Rattle.completion.specs.BridgeLaws.{Bridgeable};
ghost use Rattle.completion.specs.Complete.{bridges_of};
ghost use Rattle.completion.specs.CompleteLaws.{Completable};

use crate::far;
use completion_reach::place::HeldCut;
use completion_reach::reachable;
use grid::FrameGrid;

// Marks the points from a candidate that ends at boundary `from` to the next, which starts at boundary `end`.
// The mark of boundary k stands at `base` + k.
pub fn bridge(g: FrameGrid, base: usize, from: usize, end: usize, limit: u64, work: &mut [u32])
    requires { Bridgeable g base from end work.old }
    ensures { work.new ≡ marking base (bridge_of g limit from end) work.old }
{
    let stop = g.position(end);
    let mut at = from;
    // A `while`: how far a turn goes is what it finds, so no range counts the turns.
    while limit < stop - g.position(at) {
        // A frame longer than the limit cannot be split; it stays a piece of its own.
        let next = reachable::reachable(g, at, end, limit).max(at + 1);
        if next == end {
            return;
        }
        let cut = HeldCut {
            left: next,
            right: next,
        };
        far::mark_cut(base, cut, work);
        at = next;
    }
}

// The same on each of `steps` steps from a candidate to the next.
// The left end of candidate i stands at `entries` + 3 i, its right end behind it.
pub fn complete_max(
    g: FrameGrid,
    base: usize,
    entries: usize,
    steps: usize,
    limit: u64,
    work: &mut [u32],
)
    requires { Completable g base entries steps work.old }
    ensures { work.new
        ≡ marking base (bridges_of g limit entries work.old steps) work.old }
{
    for i in 0..steps {
        let from = work[entries + 3 * i + 1] as usize;
        let end = work[entries + 3 * i + 3] as usize;
        bridge(g, base, from, end, limit, work);
    }
}
