// The candidates of a plan: where it may cut, why, and what each cut costs.
// Here are the functions on one candidate; the crate candidate_walk collects them.
// Contracts cite specs/Candidates; laws and theorems about it stand beside it.
#![tactic(auto)]

pub mod candidate;
pub mod context;
pub mod own;
pub mod pause;
pub mod point;
