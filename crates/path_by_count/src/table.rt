// The table by count: row after row over the same work lists, the parents of each row in its own part of one flat list.
ghost use Rattle.std.specs.Prelude.{◌*◌, ◌≤◌, ◌<◌, length};
ghost use Rattle.path_by_count_rows.specs.Rows.{Laid, behind};
ghost use Rattle.path_by_count.specs.Filled.{RowsFilled};

use path_by_count_rows::row;
use path_pieces::ends::Ends;
use path_pieces::lengths::Lengths;

// From the first row to row `pieces`.
fn later_rows(
    ends: &Ends,
    leaves: usize,
    lengths: Lengths,
    pieces: usize,
    over: &mut [u32],
    cost: &mut [f64],
    parent: &mut [u32],
)
    requires rows_filled { RowsFilled lengths ends.now.left.now ends.now.right.now
        (behind (length ends.now.left.now) cost.old) leaves
        over.old cost.old parent.old 1 }
    requires pieces_nonzero { (0 < pieces) × (pieces < length ends.now.left.now) }
    requires left_in_bounds { pieces * length ends.now.left.now ≤ length parent.old }
    ensures { RowsFilled lengths ends.now.left.now ends.now.right.now
        (behind (length ends.now.left.now) cost.old) leaves
        over.new cost.new parent.new pieces }
{
    let n = ends.left.len();
    for k in 1..pieces {
        let start = k * n;
        row::next_row(
            ends,
            leaves,
            lengths,
            k + 1,
            over,
            cost,
            &mut parent[start..start + n],
        );
    }
}

// Fills the rows 1 to `pieces`.
pub fn fill_rows(
    ends: &Ends,
    leaves: usize,
    lengths: Lengths,
    pieces: usize,
    over: &mut [u32],
    cost: &mut [f64],
    parent: &mut [u32],
)
    requires laid { Laid lengths ends.now.left.now ends.now.right.now leaves over.old cost.old }
    requires pieces_nonzero { (0 < pieces) × (pieces < length ends.now.left.now) }
    requires left_in_bounds { pieces * length ends.now.left.now ≤ length parent.old }
    ensures { RowsFilled lengths ends.now.left.now ends.now.right.now
        (behind (length ends.now.left.now) cost.old) leaves
        over.new cost.new parent.new pieces }
{
    row::first_row(
        ends,
        leaves,
        lengths,
        over,
        cost,
        &mut parent[..ends.left.len()],
    );
    later_rows(ends, leaves, lengths, pieces, over, cost, parent);
}
