// Where grid points go: which boundaries silences block, and the quietest boundary of each block between them.
// Contracts cite specs/Blocked and specs/Points; laws and theorems about them stand beside them.
#![tactic(auto)]

pub mod blocked;
pub mod fill;
pub mod points;
