// The rows of the table by count, each from the one before, and the first start of the pieces that end at each
// candidate. Contracts cite specs/First.antt and specs/Rows.antt.
#![tactic(auto)]

pub mod first;
pub mod row;
