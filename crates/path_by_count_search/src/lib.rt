// The search for the best predecessor of a piece that ends at a given place, over one row of the table by count: a
// plain scan, and a pruned search over the tree of least scores. Contracts cite specs/Starts.antt, specs/Visit.antt and
// specs/Narrow.antt, and specs/Least.antt and specs/Tree.antt of path_by_count_tree; specs/Theorems.antt says that the
// pruned search gives the plain least.
#![tactic(auto)]

pub mod bound;
pub mod halves;
pub mod least;
pub mod narrow;
pub mod scan;
pub mod visit;
