// The lines that `cutplan` prints, for a plan that is given as numbers and for a refusal.
// Contracts cite specs/Listing.antt. Others call write::write_plan and write::write_refusal.
#![tactic(auto)]

pub mod line;
pub mod put;
pub mod write;
