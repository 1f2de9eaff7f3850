// The plain search for the best predecessor: every candidate of a range, one after the other.
ghost use Rattle.std.specs.Prelude.{◌≡◌, ◌-◌, ◌<◌, cond, get_or, Some};
ghost use Rattle.path_pieces.specs.Pieces.{with_piece, less_than, score_at};
ghost use Rattle.path_by_count_tree.specs.Least.{least_in};
ghost use Rattle.path_by_count_search.specs.Starts.{arrival_at, Starts, Start};

use path_pieces::best::Best;
use path_pieces::lengths::Lengths;
use path_pieces::score::Score;

// The score through candidate i of a path whose last piece ends at the place `end`; the candidate's own score stands at
// index `node`.
pub fn score_from(
    right: &[u64],
    over: &[u32],
    cost: &[f64],
    lengths: Lengths,
    end: u64,
    node: usize,
    i: usize,
) -> Score
    requires { Start right.now over.now cost.now node i end }
    ensures { result ≡ with_piece lengths (score_at over.now cost.now node)
        (end - get_or right.now i 0) }
{
    let prior = Score {
        over: over[node],
        cost: cost[node],
    };
    prior.with_piece(lengths, end - right[i])
}

// The later candidate i where its score is better.
#[tactic(auto, using(path_pieces::specs::OrderLaws::score_less))]
fn or_later(best: Best, score: Score, i: usize) -> Best
    ensures { result ≡ cond (less_than score best.score) (record { score = score; at = i }) best }
{
    if score < best.score {
        Best { score, at: i }
    } else {
        best
    }
}

// The best predecessor among the candidates from..to; candidate i's own score stands at index base + i.
pub fn scan_least(
    right: &[u64],
    over: &[u32],
    cost: &[f64],
    base: usize,
    lengths: Lengths,
    end: u64,
    from: usize,
    to: usize,
) -> Best
    requires starts { Starts lengths right.now over.now cost.now base to end }
    requires from_lt_to { from < to }
    ensures { Some result ≡ least_in (arrival_at lengths right.now over.now cost.now base end)
        from to }
{
    let mut best = Best {
        score: score_from(right, over, cost, lengths, end, base + from, from),
        at: from,
    };
    // Walking on, `<` keeps the earliest predecessor on ties: longer pieces, fewer cuts.
    for i in from + 1..to {
        best = or_later(
            best,
            score_from(right, over, cost, lengths, end, base + i, i),
            i,
        );
    }
    best
}
