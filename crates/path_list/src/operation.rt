// The operation itself.
ghost use Rattle.std.specs.Prelude.{◌≡◌};
ghost use Rattle.base_terms.specs.Work.{work_of};
ghost use Rattle.path_list.specs.Operation.{end_of, path_of};

use crate::search;
use crate::search::Answer;
use base_code::work;
use path_pieces::ends::Ends;
use path_pieces::lengths::Lengths;
use path_pieces::mode::Mode;
use path_tests::refusal;

// The best path over lent candidates, written to the front of `path`.
pub fn best_path(
    ends: &Ends,
    cost: &[f64],
    lengths: Lengths,
    mode: Mode,
    u32s: &mut [u32],
    u64s: &mut [u64],
    f64s: &mut [f64],
    parent: &mut [u32],
    path: &mut [u32],
) -> Answer
    ensures { end_of result path.new
        (work_of u32s.new u64s.new f64s.new)
        parent.new
        ≡ path_of lengths ends.now.left.now ends.now.right.now cost.now mode path.old
        (work_of u32s.old u64s.old f64s.old)
        parent.old }
{
    refusal::first_refusal(
        ends,
        cost,
        lengths,
        mode,
        u32s.len(),
        u64s.len(),
        f64s.len(),
    )?;
    let answer = search::search(ends, cost, lengths, mode, u32s, f64s, parent, path);
    work::clear_work(u32s, u64s, f64s);
    parent.fill(0);
    answer
}
