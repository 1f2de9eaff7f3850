// The best path over candidates, by length: a table of best scores, filled from the left, and the walk back through it.
// Contracts cite specs/Table.antt and specs/Solved.antt; path_rules says what a path, its score and the tie rule are,
// and specs/Theorems.antt that the path found is the best.
#![tactic(auto)]

pub mod backtrack;
pub mod search;
