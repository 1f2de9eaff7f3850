// The rows of the table by count: the first, and each next one from the scores of the one before.
ghost use Rattle.std.specs.Prelude.{◌≡◌, ◌-◌, ◌≤◌, ◌<◌, length, Some};
ghost use Rattle.base_terms.specs.Layout.{behind_tree};
ghost use Rattle.path_pieces.specs.Least.{predecessor_of};
ghost use Rattle.path_pieces.specs.Domain.{Searchable};
ghost use Rattle.path_by_count_rows.specs.Rows.{first_score, leaf_score, behind, Laid, ScoreRow, Planted, RowReady};
ghost use Rattle.path_by_count_rows.specs.Rows.{FirstRow, NextRow, FirstWritten, NextWritten};

use base_code::layout::SearchLayout;
use path_by_count_search::least;
use path_by_count_tree::tree;
use path_pieces::best::Best;
use path_pieces::ends::Ends;
use path_pieces::lengths::Lengths;
use path_pieces::score::Score;

// The best predecessor of candidate j in row k, sought from `near` on. The first starts stand from `firsts` on.
fn predecessor(
    ends: &Ends,
    over: &[u32],
    cost: &[f64],
    leaves: usize,
    lengths: Lengths,
    k: usize,
    j: usize,
    near: usize,
    firsts: usize,
) -> Best
    requires row_ready { RowReady lengths ends.now.left.now ends.now.right.now leaves over.now cost.now k j }
    requires firsts_value { firsts ≡ behind_tree (length ends.now.left.now) }
    ensures { Some result ≡ predecessor_of lengths ends.now.left.now ends.now.right.now
        (leaf_score leaves over.now cost.now) (k - 1) j }
{
    let first = over[firsts + j] as usize;
    let from = first.max(k - 1);
    least::least_predecessor(
        ends.right,
        over,
        cost,
        leaves,
        lengths,
        ends.left[j],
        from,
        j,
        near,
    )
}

// Writes row k over the row before, from the last candidate down: a score depends on earlier candidates alone, and the
// inner nodes of the tree still bound these. Scores are compared before the cut at the piece's end is added. The best
// predecessors of neighbours lie close together, so each is sought from the one before.
fn write_row(
    ends: &Ends,
    leaves: usize,
    lengths: Lengths,
    k: usize,
    over: &mut [u32],
    cost: &mut [f64],
    row: &mut [u32],
)
    requires planted { Planted lengths ends.now.left.now ends.now.right.now leaves over.old cost.old }
    requires k_nonzero { (0 < k) × (k ≤ length ends.now.left.now) }
    requires row_len { length row.old ≡ length ends.now.left.now }
    ensures { NextWritten lengths ends.now.left.now ends.now.right.now leaves over.old cost.old
        over.new
        cost.new row.new k k }
{
    let n = ends.left.len();
    let places = SearchLayout { candidates: n };
    let from = places.behind_tree();
    let to = places.end_by_count();
    let mut near = n;
    for j in (k..n).rev() {
        let best = predecessor(ends, over, cost, leaves, lengths, k, j, near, from);
        let score = best.score.with_cut_at(&cost[from..to], j);
        over[leaves + j] = score.over;
        cost[leaves + j] = score.cost;
        row[j] = best.at as u32;
        near = best.at;
    }
}

// Row k of the table, for k of 2 or more: the scores of the row before become those of this one, and each best
// predecessor is written to the row's part of the parent list. The tree is linked anew for it.
pub fn next_row(
    ends: &Ends,
    leaves: usize,
    lengths: Lengths,
    k: usize,
    over: &mut [u32],
    cost: &mut [f64],
    row: &mut [u32],
)
    requires laid { Laid lengths ends.now.left.now ends.now.right.now leaves over.old cost.old }
    requires score_row { ScoreRow leaves (length ends.now.left.now) over.old cost.old }
    requires k_nonzero { (0 < k) × (k ≤ length ends.now.left.now) }
    requires row_len { length row.old ≡ length ends.now.left.now }
    ensures { NextRow lengths ends.now.left.now ends.now.right.now leaves over.old cost.old
        over.new
        cost.new row.new k }
{
    tree::link_nodes(over, cost, leaves);
    write_row(ends, leaves, lengths, k, over, cost, row);
}

// The score of a path of one piece to candidate j; to the first there is none.
fn first_score(ends: &Ends, cut: &[f64], lengths: Lengths, j: usize) -> Score
    requires searchable { Searchable lengths ends.now.left.now ends.now.right.now cut.now }
    requires j_in_bounds { j < length ends.now.left.now }
    ensures { result ≡ first_score lengths ends.now.left.now ends.now.right.now cut.now j }
{
    let none = Score { over: 0, cost: 0.0 };
    if j == 0 {
        return none;
    }
    let score = none.with_piece(lengths, ends.left[j] - ends.right[0]);
    score.with_cut_at(cut, j)
}

// Writes one piece from the first candidate to each of the others.
fn write_first(
    ends: &Ends,
    leaves: usize,
    lengths: Lengths,
    over: &mut [u32],
    cost: &mut [f64],
    row: &mut [u32],
)
    requires laid { Laid lengths ends.now.left.now ends.now.right.now leaves over.old cost.old }
    requires row_len { length row.old ≡ length ends.now.left.now }
    ensures { FirstWritten lengths ends.now.left.now ends.now.right.now leaves over.old cost.old
        over.new
        cost.new row.new (length ends.now.left.now) }
{
    let n = ends.left.len();
    let places = SearchLayout { candidates: n };
    let from = places.behind_tree();
    let to = places.end_by_count();
    for j in 0..n {
        let score = first_score(ends, &cost[from..to], lengths, j);
        over[leaves + j] = score.over;
        cost[leaves + j] = score.cost;
        row[j] = 0;
    }
}

// The first row of the table: one piece from the first candidate, of any length.
pub fn first_row(
    ends: &Ends,
    leaves: usize,
    lengths: Lengths,
    over: &mut [u32],
    cost: &mut [f64],
    row: &mut [u32],
)
    requires laid { Laid lengths ends.now.left.now ends.now.right.now leaves over.old cost.old }
    requires row_len { length row.old ≡ length ends.now.left.now }
    ensures { FirstRow lengths ends.now.left.now ends.now.right.now leaves over.old cost.old
        over.new
        cost.new row.new }
{
    write_first(ends, leaves, lengths, over, cost, row);
    tree::pad_leaves(over, cost, leaves + ends.left.len(), leaves * 2);
}
