// The best path by count, searched and held in one work list.
ghost use Rattle.std.specs.Prelude.{◌+◌, ◌-◌, ◌*◌, ◌≤◌, ◌<◌, length};
ghost use Rattle.path_rules.specs.Paths.{piece_count};
ghost use Rattle.path_by_count.specs.Table.{best_path_by_count, best_score_by_count};
ghost use Rattle.path_by_count_rows.specs.Rows.{behind};
ghost use Rattle.path_by_count.specs.Counted.{TreeRoom};
ghost use Rattle.plan_lists.specs.Within.{part_at};
ghost use Rattle.plan_path.specs.Held.{PathHeld};

use path_by_count::search::best_score;
use path_by_count::walk;
use path_pieces::ends::Ends;
use path_pieces::lengths::Lengths;
use path_pieces::score::Score;
use path_rules::solved::Solved;

// Searches in the part of `work` from `search` to `at`, and writes the path from `at` on. The costs of the cuts stand
// behind the tree in `cost`.
pub fn path_by_count(
    ends: &Ends,
    lengths: Lengths,
    count: usize,
    work: &mut [u32],
    search: usize,
    at: usize,
    cost: &mut [f64],
    parent: &mut [u32],
) -> Solved
    requires tree_room { TreeRoom lengths ends.now.left.now ends.now.right.now
        (part_at search (at - search) work.old) cost.old }
    requires search_le_at { (search ≤ at) × (at + length ends.now.left.now ≤ length work.old) }
    requires count_nonzero { (0 < count)
        × (piece_count ends.now.left.now count * length ends.now.left.now ≤ length parent.old) }
    ensures { PathHeld search at
        (best_path_by_count lengths ends.now.left.now ends.now.right.now
        (behind (length ends.now.left.now) cost.old) count)
        (best_score_by_count lengths ends.now.left.now ends.now.right.now
        (behind (length ends.now.left.now) cost.old) count)
        work.old work.new result }
{
    let n = ends.left.len();
    let pieces = count.min(n - 1);
    if pieces == 0 {
        work[at] = 0;
        let score = Score { over: 0, cost: 0.0 };
        return Solved { score, len: 1 };
    }
    let score = best_score(ends, lengths, pieces, &mut work[search..at], cost, parent);
    walk::walk(parent, n, pieces, &mut work[at..]);
    Solved {
        score,
        len: pieces + 1,
    }
}
