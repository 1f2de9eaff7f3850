// What is written within one of a plan's work lists from what else stands in it: the candidates' ends in samples, the walk
// back; and whether the parent list is long enough.
// Contracts cite specs/Within for the parts of a list, specs/Positions for the ends in samples, specs/Back for the walk
// and specs/Parents.
#![tactic(auto)]

pub mod back;
pub mod parents;
pub mod positions;
