// Which of two candidates comes first, and the tree of least scores over one row of the table by count.
// Contracts cite specs/Least.antt, specs/Tree.antt and specs/Fill.antt.
#![tactic(auto)]

pub mod best;
pub mod tree;
