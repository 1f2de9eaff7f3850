// The walk back from the last candidate, one row for each piece.
ghost use Rattle.std.specs.Prelude.{◌≡◌, ◌+◌, ◌-◌, ◌≤◌, length};
ghost use Rattle.base_terms.specs.Lists.{onto};
ghost use Rattle.path_by_count.specs.Walk.{way_in, Back};

// Writes the path of `pieces` pieces to the last of n candidates to the front of `path`.
pub fn walk(parent: &[u32], n: usize, pieces: usize, path: &mut [u32])
    requires back { Back parent.now n pieces }
    requires pieces_in_bounds { pieces + 1 ≤ length path.old }
    ensures { path.new ≡ onto (way_in parent.now n pieces (n - 1)) path.old }
{
    let mut j = n - 1;
    for k in (0..pieces).rev() {
        path[k + 1] = j as u32;
        j = parent[k * n + j] as usize;
    }
    path[0] = j as u32;
}
