// What a piece adds to a path: its length's cost, whether it is over the limit, and the scores that the path search
// compares. Contracts cite specs/Pieces.antt; specs/Domain.antt says which lent candidates and preferences are
// accepted.
#![tactic(auto)]

pub mod best;
pub mod ends;
pub mod lengths;
pub mod mode;
pub mod score;
pub mod weights;
