// The best path by length, searched and held in one work list.
ghost use Rattle.std.specs.Prelude.{◌+◌, ◌-◌, ◌≤◌, length};
ghost use Rattle.path_rules.specs.Paths.{last_candidate};
ghost use Rattle.path_by_length.specs.Table.{best_path, best_score};
ghost use Rattle.path_by_length.specs.Solved.{TableRoom, cuts_in};
ghost use Rattle.plan_lists.specs.Within.{part_at};
ghost use Rattle.plan_path.specs.Held.{PathHeld};

use base_code::layout;
use path_by_length::search::search_by_length;
use path_pieces::ends::Ends;
use path_pieces::lengths::Lengths;
use path_rules::solved::Solved;
use plan_lists::back;

// Searches in the part of `work` from `search` to `at`, and writes the path from `at` on. The costs of the cuts stand
// behind the scores' in `cost`.
pub fn path_by_length(
    ends: &Ends,
    lengths: Lengths,
    work: &mut [u32],
    search: usize,
    at: usize,
    cost: &mut [f64],
) -> Solved
    requires table_room { TableRoom lengths ends.now.left.now ends.now.right.now
        (part_at search (at - search) work.old) cost.old }
    requires search_le_at { (search ≤ at) × (at + length ends.now.left.now ≤ length work.old) }
    ensures { PathHeld search at
        (best_path lengths ends.now.left.now ends.now.right.now
        (cuts_in (length ends.now.left.now) cost.old))
        (best_score lengths ends.now.left.now ends.now.right.now
        (cuts_in (length ends.now.left.now) cost.old)
        (last_candidate ends.now.left.now))
        work.old work.new result }
{
    let n = ends.left.len();
    let solved = search_by_length(ends, lengths, &mut work[search..at], cost);
    let parents = search + layout::behind_table(n);
    back::backtrack_within(work, parents, n, solved.len, at);
    solved
}
