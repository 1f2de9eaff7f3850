// The walk over the frame boundaries that collects a plan's candidates in work memory.
// Contracts cite specs/Held for what work memory holds and specs/Collect for the walk; the places are those of
// base_terms/specs/Layout.
#![tactic(auto)]

pub mod collect;
pub mod held;
pub mod put;
