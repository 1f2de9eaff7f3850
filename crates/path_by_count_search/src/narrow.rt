// Where the search over the tree starts: at the lowest node whose range holds all that is sought.
ghost use Rattle.std.specs.Prelude.{◌≡◌, ◌+◌, ◌*◌, ◌≤◌, ◌<◌, T};
ghost use Rattle.base_terms.specs.Floats.{nonneg};
ghost use Rattle.path_by_count_search.specs.Starts.{Starts};
ghost use Rattle.path_by_count_tree.specs.Tree.{Covers};
ghost use Rattle.path_by_count_search.specs.Visit.{query_lengths, FirstIn, through};
ghost use Rattle.path_by_count_search.specs.Narrow.{narrower_of};

use crate::visit;
use crate::visit::Query;
use path_pieces::best::Best;

// A node with its range.
#[derive(Clone, Copy)]
pub struct Place {
    pub node: usize,
    pub lo: usize,
    pub hi: usize,
}

// The half that holds from..to, or the place itself where neither does.
fn narrower(place: Place, from: usize, to: usize) -> Place
    requires lo_le_hi { place.lo ≤ place.hi }
    requires node_bound { place.node * 2 + 1 < 18446744073709551616 }
    ensures { result ≡ narrower_of place from to }
{
    let mid = place.lo.midpoint(place.hi);
    if to <= mid {
        Place {
            node: place.node * 2,
            hi: mid,
            ..place
        }
    } else if mid <= from {
        Place {
            node: place.node * 2 + 1,
            lo: mid,
            ..place
        }
    } else {
        place
    }
}

// The first of the best so far and the candidates in the query. No bound is needed on the way down to the place that
// holds them all.
pub fn search(right: &[u64], over: &[u32], cost: &[f64], query: Query, best: Best) -> Best
    requires starts { Starts (query_lengths query) right.now over.now cost.now
        query.leaves query.to query.end }
    requires covers { Covers query.leaves query.to over.now cost.now 1 0 query.leaves }
    requires to_le_leaves { query.to ≤ query.leaves }
    requires nonneg { T (nonneg best.score.cost) }
    ensures { FirstIn (through query right.now over.now cost.now) 0 query.leaves
        query.from query.to best result }
{
    let mut place = Place {
        node: 1,
        lo: 0,
        hi: query.leaves,
    };
    // A `while`: the way down a tree, which no range has.
    while visit::FEW < place.hi - place.lo {
        let next = narrower(place, query.from, query.to);
        if next.node == place.node {
            break;
        }
        place = next;
    }
    visit::visit(
        right, over, cost, query, place.node, place.lo, place.hi, best,
    )
}
