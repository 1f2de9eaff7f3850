// The least score that any predecessor of a range can give.
ghost use Rattle.std.specs.Prelude.{◌≡◌, ◌-◌, ◌≤◌, ◌<◌};
ghost use Rattle.base_terms.specs.Limits.{max_len};
ghost use Rattle.path_pieces.specs.Limits.{max_candidates};
ghost use Rattle.path_by_count_search.specs.Bound.{length_bound_of, with_bound, bound_of};
ghost use Rattle.path_by_count_search.specs.Visit.{Ranged};

use base_code::floats;
use path_pieces::lengths::Lengths;
use path_pieces::score::Score;

// The least cost of a length from the shortest to the longest.
//
// Independent lower bounds on the squared target distance and the shortfall. Every operation on the nonnegative terms
// is monotone, including IEEE rounding. Using the same operation order as length_cost makes this safe even at exact
// ties.
fn length_bound(lengths: Lengths, shortest: u64, longest: u64) -> f64
    requires shortest_le_longest { shortest ≤ longest }
    requires longest_le_max_len { longest ≤ max_len }
    ensures { result ≡ length_bound_of lengths shortest longest }
{
    let min = shortest as f64;
    let max = longest as f64;
    let closest = floats::clamp(lengths.target, min, max);
    let off = (closest - lengths.target) / lengths.target;
    let cost = lengths.weights.target * off * off;
    if max < lengths.min {
        cost + lengths.weights.short * (lengths.min - max) / lengths.min
    } else {
        cost
    }
}

// After a score, the least that one more piece of such a length gives.
fn bound_score(prior: Score, lengths: Lengths, shortest: u64, longest: u64) -> Score
    requires over_le_max_candidates { prior.over ≤ max_candidates }
    requires shortest_le_longest { shortest ≤ longest }
    requires longest_le_max_len { longest ≤ max_len }
    ensures { result ≡ with_bound lengths prior shortest longest }
{
    Score {
        over: prior.over + lengths.over(shortest),
        cost: prior.cost + length_bound(lengths, shortest, longest),
    }
}

// The bound of the candidates lo..hi by the score of a node, for a piece that ends at the place `end`.
pub fn bound(
    right: &[u64],
    over: &[u32],
    cost: &[f64],
    lengths: Lengths,
    end: u64,
    node: usize,
    lo: usize,
    hi: usize,
) -> Score
    requires { Ranged right.now over.now cost.now end node lo hi }
    ensures { result ≡ bound_of lengths right.now over.now cost.now end node lo hi }
{
    let shortest = end - right[hi - 1];
    let longest = end - right[lo];
    let prior = Score {
        over: over[node],
        cost: cost[node],
    };
    bound_score(prior, lengths, shortest, longest)
}
