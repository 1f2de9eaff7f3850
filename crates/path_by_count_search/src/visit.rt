// The pruned search over the tree of least scores: ranges whose bound cannot improve the best so far are left out.
//
// Floating-point rounding can break Monge argmin ordering, even with convex real-valued costs, so only bounds prune.
ghost use Rattle.std.specs.Prelude.{◌≡◌, ◌+◌, T};
ghost use Rattle.base_terms.specs.Floats.{nonneg};
ghost use Rattle.path_pieces.specs.Least.{entry};
ghost use Rattle.path_by_count_tree.specs.Least.{ahead_best};
ghost use Rattle.path_by_count_search.specs.Starts.{Starts, Start};
ghost use Rattle.path_by_count_tree.specs.Tree.{Covers};
ghost use Rattle.path_by_count_search.specs.Visit.{query_lengths, FirstIn, through};

use crate::{halves, scan};
use path_by_count_tree::best;
use path_pieces::best::Best;
use path_pieces::lengths::Lengths;
use path_pieces::weights;

// So few candidates are compared one after the other: a bound costs about as much as a score, so that halving on would
// cost more than it leaves out.
pub const FEW: usize = 16;

// What is sought: the best predecessor among the candidates from..to of a piece that ends at the place `end`.
// The leaf of candidate i stands at leaves + i.
//
// Of the preferences it holds the five numbers that a length's cost and its bound look at: every call of `visit` copies
// the query, and the weights of a cut made it slower by up to 8 %.
#[derive(Clone, Copy)]
pub struct Query {
    pub min: f64,
    pub target: f64,
    pub limit: u64,
    pub target_weight: f64,
    pub short_weight: f64,
    pub end: u64,
    pub from: usize,
    pub to: usize,
    pub leaves: usize,
}

impl Query {
    // The preferences, by value.
    pub fn lengths(self) -> Lengths
        ensures { result ≡ query_lengths self }
    {
        Lengths {
            min: self.min,
            target: self.target,
            limit: self.limit,
            weights: weights::length_weights(self.target_weight, self.short_weight),
        }
    }
}

// The first of the best so far and the candidate i.
fn at_leaf(right: &[u64], over: &[u32], cost: &[f64], query: Query, i: usize, best: Best) -> Best
    requires { Start right.now over.now cost.now (query.leaves + i) i query.end }
    ensures { result ≡ ahead_best (entry (through query right.now over.now cost.now) i) best }
{
    let node = query.leaves + i;
    let score = scan::score_from(right, over, cost, query.lengths(), query.end, node, i);
    best::first_of(Best { score, at: i }, best)
}

// The first of the best so far and the candidates of lo..hi that lie in the query, one after the other.
fn at_leaves(
    right: &[u64],
    over: &[u32],
    cost: &[f64],
    query: Query,
    lo: usize,
    hi: usize,
    best: Best,
) -> Best
    requires starts { Starts (query_lengths query) right.now over.now cost.now
        query.leaves query.to query.end }
    requires nonneg { T (nonneg best.score.cost) }
    ensures { FirstIn (through query right.now over.now cost.now) lo hi query.from
        query.to best result }
{
    let mut first = best;
    for i in lo.max(query.from)..hi.min(query.to) {
        first = at_leaf(right, over, cost, query, i, first);
    }
    first
}

// The first of the best so far and the candidates of lo..hi that lie in the query.
pub fn visit(
    right: &[u64],
    over: &[u32],
    cost: &[f64],
    query: Query,
    node: usize,
    lo: usize,
    hi: usize,
    best: Best,
) -> Best
    requires starts { Starts (query_lengths query) right.now over.now cost.now
        query.leaves query.to query.end }
    requires covers { Covers query.leaves query.to over.now cost.now node lo hi }
    requires nonneg { T (nonneg best.score.cost) }
    ensures { FirstIn (through query right.now over.now cost.now) lo hi query.from
        query.to best result }
{
    if hi - lo <= FEW {
        return at_leaves(right, over, cost, query, lo, hi, best);
    }
    let parts = halves::halves(right, over, cost, query, node, lo, hi);
    let (a, b) = (parts.first, parts.second);
    let found = if best::ahead(a.outlook, best) {
        visit(right, over, cost, query, a.node, a.lo, a.hi, best)
    } else {
        best
    };
    if best::ahead(b.outlook, found) {
        visit(right, over, cost, query, b.node, b.lo, b.hi, found)
    } else {
        found
    }
}
