// What a search for the best predecessor of a candidate finds.
use crate::score::Score;

// A candidate, with the score of the path through it before the cut at the piece's end. Of two the lesser comes first:
// it has a better score, or an equal one and a lower index (specs/OrderLaws.antt).
#[derive(Clone, Copy, PartialEq, PartialOrd)]
pub struct Best {
    pub score: Score,
    pub at: usize,
}
