// The best path by length: the table of best scores, filled from the left, and the path that it gives.
ghost use Rattle.std.specs.Prelude.{◌≡◌, length};
ghost use Rattle.path_by_length.specs.Solved.{cuts_in, over_with, cost_with};
ghost use Rattle.path_by_length.specs.Solved.{TableRoom, FilledBefore, Filled, Settled};

use crate::backtrack;
use base_code::layout::{self, SearchLayout};
use path_by_length_search::predecessor;
use path_pieces::ends::Ends;
use path_pieces::lengths::Lengths;
use path_pieces::score::Score;
use path_rules::solved::Solved;

// Settles candidate j: its best score, and where the last piece starts.
fn fill_at(j: usize, ends: &Ends, lengths: Lengths, over: &mut [u32], cost: &mut [f64])
    requires { FilledBefore lengths ends.now.left.now ends.now.right.now over.old cost.old j }
    ensures over_after { over.new ≡ over_with lengths ends.now.left.now ends.now.right.now
        (cuts_in (length ends.now.left.now) cost.old) over.old j }
    ensures cost_after { cost.new ≡ cost_with lengths ends.now.left.now ends.now.right.now
        (cuts_in (length ends.now.left.now) cost.old) cost.old j }
{
    let n = ends.left.len();
    let places = SearchLayout { candidates: n };
    let behind = layout::behind_table(n);
    let best = predecessor::best_predecessor(j, 0, ends, lengths, over, cost).unwrap();
    let here = best
        .score
        .with_cut_at(&cost[behind..places.end_by_length()], j);
    over[j] = here.over;
    over[behind + j] = best.at as u32;
    cost[j] = here.cost;
}

// Fills the table: at each candidate the best score of a path to it, and where its last piece starts.
fn fill_table(ends: &Ends, lengths: Lengths, over: &mut [u32], cost: &mut [f64])
    requires { TableRoom lengths ends.now.left.now ends.now.right.now over.old cost.old }
    ensures { Filled lengths ends.now.left.now ends.now.right.now over.old cost.old
        over.new
        cost.new (length ends.now.left.now) }
{
    let n = ends.left.len();
    over[0] = 0;
    over[layout::behind_table(n)] = 0;
    cost[0] = 0.0;
    for j in 1..n {
        fill_at(j, ends, lengths, over, cost);
    }
}

// Fills the table, and returns what it says of the best path from the first to the last candidate: its score, and the
// number of its candidates, which `backtrack` writes. The work lists have two places for each candidate: the best
// score's parts stand at j; behind the table stand its parent in the one list and the cost of its cut in the other,
// where the caller has put it.
pub fn search_by_length(ends: &Ends, lengths: Lengths, over: &mut [u32], cost: &mut [f64]) -> Solved
    requires { TableRoom lengths ends.now.left.now ends.now.right.now over.old cost.old }
    ensures { Settled lengths ends.now.left.now ends.now.right.now over.old cost.old
        over.new cost.new result }
{
    fill_table(ends, lengths, over, cost);
    let n = ends.left.len();
    let places = SearchLayout { candidates: n };
    let last = n - 1;
    let len = backtrack::path_len(&over[layout::behind_table(n)..places.end_by_length()], last);
    let score = Score {
        over: over[last],
        cost: cost[last],
    };
    Solved { score, len }
}
