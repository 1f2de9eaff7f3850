// A plan along a path of candidates: its pieces with their flags, and its cuts with their reasons, as lists of numbers;
// and what the operation Plan answers.
// Contracts cite the file of specs/ that has the module's name; those of `pieces` cite Along and Drawn.
#![tactic(auto)]

pub mod answer;
pub mod flags;
pub mod output;
pub mod pieces;
