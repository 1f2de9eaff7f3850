// The best path by count: as many pieces as asked for, or one fewer than candidates where that is less.
ghost use Rattle.std.specs.Prelude.{◌+◌, ◌*◌, ◌≤◌, ◌<◌, length};
ghost use Rattle.path_rules.specs.Paths.{piece_count};
ghost use Rattle.path_by_count_rows.specs.Rows.{behind};
ghost use Rattle.path_by_count.specs.Counted.{TreeRoom, FoundCounted, SolutionByCount};

use crate::{table, walk};
use base_code::layout::SearchLayout;
use path_by_count_rows::first;
use path_by_count_tree::tree;
use path_pieces::ends::Ends;
use path_pieces::lengths::Lengths;
use path_pieces::score::Score;
use path_rules::solved::Solved;

// The score of the best path of `pieces` pieces to the last candidate, and the parents that lead back.
pub fn best_score(
    ends: &Ends,
    lengths: Lengths,
    pieces: usize,
    over: &mut [u32],
    cost: &mut [f64],
    parent: &mut [u32],
) -> Score
    requires tree_room { TreeRoom lengths ends.now.left.now ends.now.right.now over.old cost.old }
    requires pieces_nonzero { (0 < pieces) × (pieces < length ends.now.left.now) }
    requires left_in_bounds { pieces * length ends.now.left.now ≤ length parent.old }
    ensures { FoundCounted lengths ends.now.left.now ends.now.right.now
        (behind (length ends.now.left.now) cost.old)
        parent.new pieces result }
{
    let n = ends.left.len();
    let leaves = tree::leaves_for(n);
    let places = SearchLayout { candidates: n };
    first::first_starts(
        ends,
        lengths.limit,
        &mut over[places.behind_tree()..places.end_by_count()],
    );
    table::fill_rows(ends, leaves, lengths, pieces, over, cost, parent);
    let last = leaves + (n - 1);
    Score {
        over: over[last],
        cost: cost[last],
    }
}

// The best path of min(count, last index) pieces, written to the front of `path`. The cuts' costs stand behind the
// tree; the other lists are for work.
pub fn search_by_count(
    ends: &Ends,
    lengths: Lengths,
    count: usize,
    over: &mut [u32],
    cost: &mut [f64],
    parent: &mut [u32],
    path: &mut [u32],
) -> Solved
    requires tree_room { TreeRoom lengths ends.now.left.now ends.now.right.now over.old cost.old }
    requires count_nonzero { 0 < count }
    requires left_in_bounds { piece_count ends.now.left.now count * length ends.now.left.now ≤ length parent.old }
    requires count_in_bounds { piece_count ends.now.left.now count + 1 ≤ length path.old }
    ensures { SolutionByCount lengths ends.now.left.now ends.now.right.now
        (behind (length ends.now.left.now) cost.old) count
        path.old path.new result }
{
    let n = ends.left.len();
    let pieces = count.min(n - 1);
    if pieces == 0 {
        path[0] = 0;
        let score = Score { over: 0, cost: 0.0 };
        return Solved { score, len: 1 };
    }
    let score = best_score(ends, lengths, pieces, over, cost, parent);
    walk::walk(parent, n, pieces, path);
    Solved {
        score,
        len: pieces + 1,
    }
}
