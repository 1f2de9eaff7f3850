// The halves of a node's range, each with the best that a candidate of it can be: the half that promises more comes
// first.
ghost use Rattle.std.specs.Prelude.{◌≡◌};
ghost use Rattle.path_by_count_search.specs.Visit.{Looks, outlook_of, in_order, halves_of, Halved};

use crate::bound;
use crate::visit::Query;
use path_by_count_tree::tree;
use path_pieces::best::Best;
use path_pieces::score::Score;

// A half: its node, its range, and its outlook.
#[derive(Clone, Copy)]
pub struct Half {
    pub node: usize,
    pub lo: usize,
    pub hi: usize,
    pub outlook: Best,
}

// Two halves, the one with the better outlook first.
#[derive(Clone, Copy)]
pub struct Ordered {
    pub first: Half,
    pub second: Half,
}

// The best that a candidate of lo..hi in the query can be: their bound, at the first of them. Where none lies in the
// query, more pieces over the limit than a path can have.
fn outlook(
    right: &[u64],
    over: &[u32],
    cost: &[f64],
    query: Query,
    node: usize,
    lo: usize,
    hi: usize,
) -> Best
    requires { Looks right.now over.now cost.now query node lo hi }
    ensures { result ≡ outlook_of query right.now over.now cost.now node lo hi }
{
    let start = lo.max(query.from);
    let stop = hi.min(query.to);
    if stop <= start {
        let score = Score {
            over: tree::NO_CANDIDATE,
            cost: 0.0,
        };
        return Best { score, at: hi };
    }
    let score = bound::bound(
        right,
        over,
        cost,
        query.lengths(),
        query.end,
        node,
        start,
        stop,
    );
    Best { score, at: start }
}

// The lower half first, unless the upper one has a better bound.
#[tactic(auto, using(path_pieces::specs::OrderLaws::score_less), unfolding(crate::specs::Visit::in_order))]
fn in_order(lower: Half, upper: Half) -> Ordered
    ensures { result ≡ in_order lower upper }
{
    if upper.outlook.score < lower.outlook.score {
        Ordered {
            first: upper,
            second: lower,
        }
    } else {
        Ordered {
            first: lower,
            second: upper,
        }
    }
}

// The halves of lo..hi, the range of a node.
pub fn halves(
    right: &[u64],
    over: &[u32],
    cost: &[f64],
    query: Query,
    node: usize,
    lo: usize,
    hi: usize,
) -> Ordered
    requires { Halved right.now over.now cost.now query node lo hi }
    ensures { result ≡ halves_of query right.now over.now cost.now node lo hi }
{
    let mid = lo.midpoint(hi);
    let below = node * 2;
    let above = below + 1;
    let lower = Half {
        node: below,
        lo,
        hi: mid,
        outlook: outlook(right, over, cost, query, below, lo, mid),
    };
    let upper = Half {
        node: above,
        lo: mid,
        hi,
        outlook: outlook(right, over, cost, query, above, mid, hi),
    };
    in_order(lower, upper)
}
