// The walk back through parents that stand in the list to which the path is written.
ghost use Rattle.std.specs.Prelude.{◌≡◌, ◌-◌};
ghost use Rattle.candidate_points.specs.Placed.{placed};
ghost use Rattle.path_by_length.specs.Table.{way_to};
ghost use Rattle.path_by_length.specs.Solved.{parent_at};
ghost use Rattle.plan_lists.specs.Within.{part_at};
ghost use Rattle.plan_lists.specs.Back.{WayRoom};

// Writes the path to the last of n candidates, in rising order, from place `at` on. Their parents stand from `parents`
// on, before that place, and the path has `len` candidates.
pub fn backtrack_within(work: &mut [u32], parents: usize, n: usize, len: usize, at: usize)
    requires { WayRoom parents n at work.old len }
    ensures { work.new
        ≡ placed at (way_to (parent_at (part_at parents n work.old)) (n - 1)) work.old }
{
    let mut j = n - 1;
    for k in (1..len).rev() {
        work[at + k] = j as u32;
        j = work[parents + j] as usize;
    }
    work[at] = 0;
}
