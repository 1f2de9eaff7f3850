// Completion: by count, the cuts that are added so that a division within the reach is found; by length, the points
// between neighbours.
// Contracts cite specs/Shares for `shares`, Bridge and Complete for `bridge`, and Cuts of completion_reach; laws stand
// beside each.
#![tactic(auto)]

pub mod bridge;
pub mod far;
pub mod shares;
