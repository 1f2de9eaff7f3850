// The walk back from a candidate over those before it, for the best predecessor: first the pieces below the minimum,
// then the others.
ghost use Rattle.std.specs.Prelude.{◌≡◌, false, ◌≤◌, ◌<◌, T, Some};
ghost use Rattle.base_terms.specs.Floats.{nonneg};
ghost use Rattle.base_terms.specs.Limits.{max_len};
ghost use Rattle.path_pieces.specs.Pieces.{IsShort};
ghost use Rattle.path_pieces.specs.Least.{or_better};
ghost use Rattle.path_by_length_search.specs.Backward.{Scored, Costed, Walked, Long, is_beyond};

use path_pieces::best::Best;
use path_pieces::ends::Ends;
use path_pieces::lengths::Lengths;
use path_pieces::score::Score;

// What the search for a candidate's predecessor reads: the candidates' ends, what is preferred of a piece's length, and
// the scores of the candidates before it.
#[derive(Clone, Copy)]
pub struct Table<'a> {
    pub ends: Ends<'a>,
    pub lengths: Lengths,
    pub over: &'a [u32],
    pub cost: &'a [f64],
}

// How far a walk back has come: the best of the candidates from `at` on.
#[derive(Clone, Copy)]
pub struct Walk {
    pub best: Best,
    pub at: usize,
}

// The candidate a, unless b, which was found after it, is better.
//
// Where both have as many pieces over the limit, one `<` of their costs chooses, in one expression: that compiles to the
// least of two costs, while `<=` of scores or an early return compiles to a branch, which goes either way at random.
fn or_better(a: Best, b: Best) -> Best
    requires first_nonneg { T (nonneg a.score.cost) }
    requires second_nonneg { T (nonneg b.score.cost) }
    ensures value { Some result ≡ or_better a (Some b) }
    ensures nonneg { T (nonneg result.score.cost) }
{
    if a.score.over == b.score.over {
        if b.score.cost < a.score.cost { b } else { a }
    } else if a.score.over < b.score.over {
        a
    } else {
        b
    }
}

// Walks back on over the pieces below the minimum that are within the limit.
pub fn short_pieces(table: Table, j: usize, from: usize, mut walk: Walk) -> Walk
    requires scored { Scored table.ends.left.now table.ends.right.now table.over.now table.cost.now j }
    requires costed { Costed table.lengths table.cost.now j }
    requires walked { Walked table.lengths table.ends.left.now table.ends.right.now table.over.now table.cost.now
        from j walk.best walk.at }
    ensures walked_after { Walked table.entry.lengths table.entry.ends.left.now table.entry.ends.right.now
        table.entry.over.now table.entry.cost.now from j result.best result.at }
    ensures long { Long table.entry.lengths table.entry.ends.left.now table.entry.ends.right.now from j result.at }
{
    for k in (from..walk.at).rev() {
        let len = table.ends.left[j] - table.ends.right[k];
        if table.lengths.limit < len || !table.lengths.is_short(len) {
            return walk;
        }
        let prior = Score {
            over: table.over[k],
            cost: table.cost[k],
        };
        let candidate = Best {
            score: prior.with_piece(table.lengths, len),
            at: k,
        };
        walk = Walk {
            best: or_better(candidate, walk.best),
            at: k,
        };
    }
    walk
}

// Walks back on over the other pieces that are within the limit, with one division for each.
fn long_pieces(table: Table, j: usize, from: usize, walk: Walk) -> Best
    requires scored { Scored table.ends.left.now table.ends.right.now table.over.now table.cost.now j }
    requires costed { Costed table.lengths table.cost.now j }
    requires from_le_j { from ≤ j }
    requires walked { Walked table.lengths table.ends.left.now table.ends.right.now table.over.now table.cost.now
        from j walk.best walk.at }
    requires long { Long table.lengths table.ends.left.now table.ends.right.now from j walk.at }
    ensures { Walked table.entry.lengths table.entry.ends.left.now table.entry.ends.right.now
        table.entry.over.now table.entry.cost.now from j result from }
{
    let mut best = walk.best;
    for k in (from..walk.at).rev() {
        let len = table.ends.left[j] - table.ends.right[k];
        if table.lengths.limit < len {
            return best;
        }
        let prior = Score {
            over: table.over[k],
            cost: table.cost[k],
        };
        let candidate = Best {
            score: prior.with_long_piece(table.lengths, len),
            at: k,
        };
        best = or_better(candidate, best);
    }
    best
}

// Whether no candidate from this piece's start back can do better than the best so far: from the target on a longer
// piece costs no less, and this one alone costs more.
#[tactic(auto, using(path_pieces::specs::OrderLaws::score_less, base_laws::specs::Nonneg::nought_is))]
fn none_better(best: Score, lengths: Lengths, len: u64) -> bool
    requires len_le_max_len { len ≤ max_len }
    requires not_short { IsShort lengths len ≡ false }
    ensures { result ≡ is_beyond lengths best len }
{
    let none = Score { over: 0, cost: 0.0 };
    lengths.passes_target(len) && best < none.with_long_piece(lengths, len)
}

// Where the next part of the walk back ends.
fn part_start(from: usize, i: usize) -> usize
    requires { from < i }
    ensures lower_bound { from ≤ result }
    ensures upper_bound { result < i }
{
    if i - from <= 128 { from } else { i - 128 }
}

// Walks back as `long_pieces` does, in parts: before each one a test whether the rest can be left out, which would cost
// too much before each piece.
pub fn long_parts(table: Table, j: usize, from: usize, walk: Walk) -> Best
    requires scored { Scored table.ends.left.now table.ends.right.now table.over.now table.cost.now j }
    requires costed { Costed table.lengths table.cost.now j }
    requires from_le_j { from ≤ j }
    requires walked { Walked table.lengths table.ends.left.now table.ends.right.now table.over.now table.cost.now
        from j walk.best walk.at }
    requires long { Long table.lengths table.ends.left.now table.ends.right.now from j walk.at }
    ensures { Walked table.entry.lengths table.entry.ends.left.now table.entry.ends.right.now
        table.entry.over.now table.entry.cost.now from j result from }
{
    let mut best = walk.best;
    let mut i = walk.at;
    // The parts are no range's: the last one is shorter, and each begins where the one before was found to end.
    while from < i {
        let len = table.ends.left[j] - table.ends.right[i - 1];
        if table.lengths.limit < len || none_better(best.score, table.lengths, len) {
            return best;
        }
        let to = part_start(from, i);
        best = long_pieces(table, j, to, Walk { best, at: i });
        i = to;
    }
    best
}
