// The walk back from the last candidate, by the parents.
ghost use Rattle.std.specs.Prelude.{◌≡◌, ◌≤◌, length};
ghost use Rattle.base_terms.specs.Lists.{onto};
ghost use Rattle.path_by_length.specs.Table.{way_to};
ghost use Rattle.path_by_length.specs.Solved.{parent_at, Parents};

// How many candidates the path to `last` has.
pub fn path_len(parent: &[u32], last: usize) -> usize
    requires { Parents parent.now last }
    ensures { result ≡ length (way_to (parent_at parent.now) last) }
{
    let mut len = 1;
    let mut j = last;
    // A step goes to a parent, so no range has the candidates on the way.
    while 0 < j {
        j = parent[j] as usize;
        len += 1;
    }
    len
}

// Writes the path to `last`, in rising order, to the front of `path`, which has `len` places for it.
pub fn backtrack(parent: &[u32], last: usize, len: usize, path: &mut [u32])
    requires parents { Parents parent.now last }
    requires len_value { len ≡ length (way_to (parent_at parent.now) last) }
    requires len_in_bounds { len ≤ length path.old }
    ensures { path.new ≡ onto (way_to (parent_at parent.now) last) path.old }
{
    let mut j = last;
    for n in (1..len).rev() {
        path[n] = j as u32;
        j = parent[j] as usize;
    }
    path[0] = 0;
}
