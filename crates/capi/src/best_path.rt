// The operation "path over lent candidates".
ghost use Rattle.std.specs.Prelude.{◌≡◌};
ghost use Rattle.path_list.specs.Operation.{path_of};
ghost use Rattle.base_terms.specs.Work.{work_of};
ghost use Rattle.kinds.specs.Flagged.{mode_of};
ghost use Rattle.capi.specs.Paths.{lengths_of, path_called, path_called_of};

use kinds::flagged;
use path_list::operation;
use path_pieces::ends::Ends;
use path_pieces::lengths::Lengths;
use path_pieces::weights;

// 0 where a path was found, and else document 01's number.
// The path's candidates stand at the front of `path`, `length` of them, and its score in `over` and `score_cost`.
pub fn buchawzer_path(
    left: &[u64],
    right: &[u64],
    cost: &[f64],
    min: f64,
    target: f64,
    limit: u64,
    target_weight: f64,
    short_weight: f64,
    by_count: bool,
    count: u32,
    work_u32: &mut [u32],
    work_u64: &mut [u64],
    work_f64: &mut [f64],
    parent: &mut [u32],
    path: &mut [u32],
    length: &mut u64,
    over: &mut u32,
    score_cost: &mut f64,
) -> u32
    ensures { path_called result length.new over.new score_cost.new path.new
        (work_of work_u32.new work_u64.new work_f64.new)
        parent.new
        ≡ path_called_of
        (path_of (lengths_of min target limit target_weight short_weight)
        left.now right.now cost.now
        (mode_of by_count count) path.old
        (work_of work_u32.old work_u64.old work_f64.old)
        parent.old)
        length.old over.old score_cost.old }
{
    let lengths = Lengths {
        min,
        target,
        limit,
        weights: weights::length_weights(target_weight, short_weight),
    };
    let answer = operation::best_path(
        &Ends { left, right },
        cost,
        lengths,
        flagged::mode_of(by_count, count),
        work_u32,
        work_u64,
        work_f64,
        parent,
        path,
    );
    match answer {
        Ok(solved) => {
            *length = solved.len as u64;
            *over = solved.score.over;
            *score_cost = solved.score.cost;
            0
        }
        Err(error) => u32::from(error),
    }
}
