// How far a division can go at each step, whether a limit leaves few enough pieces, and the reach.
// Contracts cite the file of specs/ of the module's name; laws stand beside each.
#![tactic(auto)]

pub mod fits;
pub mod ground;
pub mod next;
pub mod place;
pub mod reach;
pub mod reachable;
