// Piece length preferences in samples, and what a piece costs for its length.
ghost use Rattle.std.specs.Prelude.{◌≡◌, false, ◌≤◌};
ghost use Rattle.base_terms.specs.Limits.{max_len};
ghost use Rattle.path_pieces.specs.Pieces.{length_cost_of, IsShort, passes_target, over_of};

use crate::weights::Weights;

// What is preferred of a piece's length: the minimum and the target, the limit that it should not pass, and the
// weights, of which those of being off the target and below the minimum count here.
#[derive(Clone, Copy)]
pub struct Lengths {
    pub min: f64,
    pub target: f64,
    pub limit: u64,
    pub weights: Weights,
}

impl Lengths {
    // What a piece of this length costs.
    pub fn cost(self, len: u64) -> f64
        requires { len ≤ max_len }
        ensures { result ≡ length_cost_of self len }
    {
        let len = len as f64;
        let off = (len - self.target) / self.target;
        let cost = self.weights.target * off * off;
        if len < self.min {
            cost + self.weights.short * (self.min - len) / self.min
        } else {
            cost
        }
    }

    // Whether a piece of this length is below the minimum.
    pub fn is_short(self, len: u64) -> bool
        requires { len ≤ max_len }
        ensures { result ≡ IsShort self len }
    {
        (len as f64) < self.min
    }

    // Whether a piece of this length is longer than the target.
    pub fn passes_target(self, len: u64) -> bool
        requires { len ≤ max_len }
        ensures { result ≡ passes_target self len }
    {
        self.target < len as f64
    }

    // What a piece that is not below the minimum costs: one division, where `cost` may be compiled to make both of its
    // own for every piece.
    pub fn long_cost(self, len: u64) -> f64
        requires len_le_max_len { len ≤ max_len }
        requires not_short { IsShort self len ≡ false }
        ensures { result ≡ length_cost_of self len }
    {
        let off = (len as f64 - self.target) / self.target;
        self.weights.target * off * off
    }

    // 1 for a piece that is longer than the limit, else 0.
    pub fn over(self, len: u64) -> u32
        ensures { result ≡ over_of self.limit len }
    {
        u32::from(self.limit < len)
    }
}
