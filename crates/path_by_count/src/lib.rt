// The best path by count: the rows of the table over a flat list of parents, and the walk back through it. Contracts
// cite specs/Table.antt, specs/Filled.antt, specs/Walk.antt and specs/Counted.antt; path_rules says what a path, its
// score and the tie rule are, and specs/Theorems.antt that the path found is the best.
#![tactic(auto)]

pub mod search;
pub mod table;
pub mod walk;
