// The search over n candidates that a plan's work memory holds, with the path held there too.
ghost use Rattle.std.specs.Prelude.{◌≡◌, ◌*◌, ◌≤◌, ◌<◌, length, take};
ghost use Rattle.base_terms.specs.Layout.{search_at, path_at, scores_at};
ghost use Rattle.path_rules.specs.Paths.{last_candidate, piece_count};
ghost use Rattle.path_by_length.specs.Table.{best_path, best_score};
ghost use Rattle.path_by_count.specs.Table.{best_path_by_count, best_score_by_count};
ghost use Rattle.plan_path.specs.Held.{PathHeld};
ghost use Rattle.plan_path.specs.Search.{lefts_in, rights_in, costs_in, SearchRoom};

use crate::{by_count, by_length};
use base_code::layout::{self, Layout, SearchLayout};
use path_pieces::ends::Ends;
use path_pieces::lengths::Lengths;
use path_rules::solved::Solved;

// By length.
// Two functions and not one over both modes: each asks a search of its own, which promises another best path and score.
pub fn search_by_length(
    frames: usize,
    n: usize,
    lengths: Lengths,
    work_u32: &mut [u32],
    work_u64: &[u64],
    work_f64: &mut [f64],
) -> Solved
    requires { SearchRoom lengths frames n work_u32.old work_u64.now work_f64.old }
    ensures path_held { PathHeld (search_at frames) (path_at frames)
        (best_path lengths (lefts_in n work_u64.now) (rights_in frames n work_u64.now)
        (costs_in frames n work_f64.old))
        (best_score lengths (lefts_in n work_u64.now) (rights_in frames n work_u64.now)
        (costs_in frames n work_f64.old) (last_candidate (lefts_in n work_u64.now)))
        work_u32.old work_u32.new result }
    ensures work_f64_unchanged { take (scores_at frames) work_f64.new ≡ take (scores_at frames) work_f64.old }
{
    let places = Layout { frames };
    let costs = places.costs_at();
    let scores = places.scores_at();
    let behind_table = scores + layout::behind_table(n);
    work_f64.copy_within(costs..costs + n, behind_table);
    let rights = places.rights_at();
    let search = places.search_at();
    let path = places.path_at();
    let end = places.end_f64();
    let ends = Ends {
        left: &work_u64[..n],
        right: &work_u64[rights..rights + n],
    };
    by_length::path_by_length(
        &ends,
        lengths,
        work_u32,
        search,
        path,
        &mut work_f64[scores..end],
    )
}

// By count.
pub fn search_by_count(
    frames: usize,
    n: usize,
    lengths: Lengths,
    count: usize,
    work_u32: &mut [u32],
    work_u64: &[u64],
    work_f64: &mut [f64],
    parent: &mut [u32],
) -> Solved
    requires search_room { SearchRoom lengths frames n work_u32.old work_u64.now work_f64.old }
    requires count_nonzero { (0 < count) × (piece_count (lefts_in n work_u64.now) count * n ≤ length parent.old) }
    ensures path_held { PathHeld (search_at frames) (path_at frames)
        (best_path_by_count lengths (lefts_in n work_u64.now) (rights_in frames n work_u64.now)
        (costs_in frames n work_f64.old) count)
        (best_score_by_count lengths (lefts_in n work_u64.now) (rights_in frames n work_u64.now)
        (costs_in frames n work_f64.old) count)
        work_u32.old work_u32.new result }
    ensures work_f64_unchanged { take (scores_at frames) work_f64.new ≡ take (scores_at frames) work_f64.old }
{
    let places = Layout { frames };
    let costs = places.costs_at();
    let scores = places.scores_at();
    let behind_tree = scores + SearchLayout { candidates: n }.behind_tree();
    work_f64.copy_within(costs..costs + n, behind_tree);
    let rights = places.rights_at();
    let search = places.search_at();
    let path = places.path_at();
    let end = places.end_f64();
    let ends = Ends {
        left: &work_u64[..n],
        right: &work_u64[rights..rights + n],
    };
    by_count::path_by_count(
        &ends,
        lengths,
        count,
        work_u32,
        search,
        path,
        &mut work_f64[scores..end],
        parent,
    )
}
