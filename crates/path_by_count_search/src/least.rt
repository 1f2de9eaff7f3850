// The best predecessor of a range of candidates, by the quicker of two searches.
ghost use Rattle.std.specs.Prelude.{◌≡◌, ◌≤◌, ◌<◌, Some};
ghost use Rattle.path_by_count_tree.specs.Least.{least_in};
ghost use Rattle.path_by_count_search.specs.Starts.{arrival_at, Starts};
ghost use Rattle.path_by_count_tree.specs.Tree.{Covers};

use crate::visit::Query;
use crate::{narrow, scan};
use path_pieces::best::Best;
use path_pieces::lengths::Lengths;

// The best predecessor among the candidates from..to of a piece that ends at the place `end`: a short range is searched
// candidate by candidate, a longer one by the tree. That search starts from the candidate of the range next to `near`:
// the better it is, the more of the tree is left out, and the answer does not depend on it.
pub fn least_predecessor(
    right: &[u64],
    over: &[u32],
    cost: &[f64],
    leaves: usize,
    lengths: Lengths,
    end: u64,
    from: usize,
    to: usize,
    near: usize,
) -> Best
    requires starts { Starts lengths right.now over.now cost.now leaves to end }
    requires covers { Covers leaves to over.now cost.now 1 0 leaves }
    requires from_lt_to { from < to }
    requires to_le_leaves { to ≤ leaves }
    ensures { Some result ≡ least_in
        (arrival_at lengths right.now over.now cost.now leaves end) from to }
{
    if to - from <= 16 {
        return scan::scan_least(right, over, cost, leaves, lengths, end, from, to);
    }
    let at = near.max(from).min(to - 1);
    let score = scan::score_from(right, over, cost, lengths, end, leaves + at, at);
    let query = Query {
        min: lengths.min,
        target: lengths.target,
        limit: lengths.limit,
        target_weight: lengths.weights.target,
        short_weight: lengths.weights.short,
        end,
        from,
        to,
        leaves,
    };
    narrow::search(right, over, cost, query, Best { score, at })
}
