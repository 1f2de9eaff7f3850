// The steps of a plan in work memory: completed candidates, the best path over candidates, and the plan along it.
// Contracts cite specs/Held for what work memory holds, and specs/Complete, Search, Hand and Steps for each step.
#![tactic(auto)]

pub mod complete;
pub mod hand;
pub mod search;
