// The best predecessor of a candidate, by length: where the last piece of the best path to it starts, found by a walk
// back over those before it. Contracts cite specs/Backward.antt, and specs/Least.antt of path_pieces for what is found.
#![tactic(auto)]

pub mod backward;
pub mod predecessor;
