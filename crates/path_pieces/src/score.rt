// A path's score: first the number of pieces over the limit, then the cost, added from left to right.
ghost use Rattle.std.specs.Prelude.{◌≡◌, false, ◌≤◌, ◌<◌, length};
ghost use Rattle.base_terms.specs.Limits.{max_len};
ghost use Rattle.path_pieces.specs.Limits.{max_index};
ghost use Rattle.path_pieces.specs.Pieces.{IsShort, with_piece, with_cut, with_cut_at};

use crate::lengths::Lengths;

// How many pieces are over the limit, and what the path costs. The lesser is the better: it has fewer pieces over the
// limit, or as many and a lower cost (specs/OrderLaws.antt).
#[derive(Clone, Copy, PartialEq, PartialOrd)]
pub struct Score {
    pub over: u32,
    pub cost: f64,
}

impl Score {
    // The score after one more piece of this length.
    pub fn with_piece(self, lengths: Lengths, len: u64) -> Score
        requires over_le_max_index { self.over ≤ max_index }
        requires len_le_max_len { len ≤ max_len }
        ensures { result ≡ with_piece lengths self len }
    {
        Score {
            over: self.over + lengths.over(len),
            cost: self.cost + lengths.cost(len),
        }
    }

    // The same for a piece that is not below the minimum, with one division in place of two (`Lengths::long_cost`).
    pub fn with_long_piece(self, lengths: Lengths, len: u64) -> Score
        requires over_le_max_index { self.over ≤ max_index }
        requires len_le_max_len { len ≤ max_len }
        requires not_short { IsShort lengths len ≡ false }
        ensures { result ≡ with_piece lengths self len }
    {
        Score {
            over: self.over + lengths.over(len),
            cost: self.cost + lengths.long_cost(len),
        }
    }

    // The score after the cut at the end of the last piece.
    pub fn with_cut(self, cut: f64) -> Score
        ensures { result ≡ with_cut self cut }
    {
        Score {
            cost: self.cost + cut,
            ..self
        }
    }

    // The score after the cut at candidate j; there is none at the last.
    pub fn with_cut_at(self, cut: &[f64], j: usize) -> Score
        requires { j < length cut.now }
        ensures { result ≡ with_cut_at cut.now j self }
    {
        if j + 1 < cut.len() {
            self.with_cut(cut[j])
        } else {
            self
        }
    }
}
