// The plan of a span that work memory holds, by length and by count.
// Contracts cite specs/Plan.antt, and specs/Lengths.antt for what the search is asked with.
#![tactic(auto)]

pub mod by_count;
pub mod by_length;
pub mod span;
