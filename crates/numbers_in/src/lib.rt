// Numbers in bytes: little-endian, at a place; floats by their bit patterns. Bytes beyond the end are not there and
// count as 0, so that reading asks nothing of the place.
// The contracts cite specs/Numbers.
#![tactic(auto)]

pub mod lists;
pub mod number;
