// The best predecessor of a candidate: where the last piece of the best path to it starts.
ghost use Rattle.std.specs.Prelude.{◌≡◌};
ghost use Rattle.path_pieces.specs.Least.{predecessor_of};
ghost use Rattle.path_pieces.specs.Pieces.{score_at};
ghost use Rattle.path_by_length_search.specs.Backward.{Scored, Costed};

use crate::backward;
use crate::backward::{Table, Walk};
use path_pieces::best::Best;
use path_pieces::ends::Ends;
use path_pieces::lengths::Lengths;
use path_pieces::score::Score;

// The best predecessor of candidate j among the candidates from..j, given each one's score.
//
// Predecessors within the limit come first. When there is none, the candidate just before j is used, which
// keeps the too-long piece as short as possible, and the piece is counted as over the limit.
//
// Walking back, pieces get no shorter, so those below the minimum come first, and none follows the first that is over
// the limit.
pub fn best_predecessor(
    j: usize,
    from: usize,
    ends: &Ends,
    lengths: Lengths,
    over: &[u32],
    cost: &[f64],
) -> Option<Best>
    requires scored { Scored ends.now.left.now ends.now.right.now over.now cost.now j }
    requires costed { Costed lengths cost.now j }
    ensures { result ≡ predecessor_of lengths ends.now.left.now ends.now.right.now
        (score_at over.now cost.now) from j }
{
    if j <= from {
        return None;
    }
    let table = Table {
        ends: *ends,
        lengths,
        over,
        cost,
    };
    let nearest = j - 1;
    let prior = Score {
        over: over[nearest],
        cost: cost[nearest],
    };
    let len = ends.left[j] - ends.right[nearest];
    let first = Best {
        score: prior.with_piece(lengths, len),
        at: nearest,
    };
    if lengths.limit < len {
        return Some(first);
    }
    let start = Walk {
        best: first,
        at: nearest,
    };
    let walk = backward::short_pieces(table, j, from, start);
    Some(backward::long_parts(table, j, from, walk))
}
