// The settings of a plan: piece lengths, what becomes of silence, where a cut is placed, and what cuts and lengths
// cost.
// Contracts cite specs/Tests; its laws stand beside it.
#![tactic(auto)]

pub mod config;
pub mod tests;
