// Whether the parent list is long enough for a path by count.
ghost use Rattle.std.specs.Prelude.{◌≡◌, suc, ◌≤◌, ◌<◌};
ghost use Rattle.path_pieces.specs.Limits.{max_index};
ghost use Rattle.plan_lists.specs.Parents.{has_parents};

// 14: whether a parent list of this length has an entry for each piece and candidate of a path.
pub fn has_parents(count: usize, candidates: usize, parents: usize) -> bool
    requires { (0 < candidates) × (candidates ≤ suc max_index) }
    ensures { result ≡ has_parents count candidates parents }
{
    count.min(candidates - 1) * candidates <= parents
}
