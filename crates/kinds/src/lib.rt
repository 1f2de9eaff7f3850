// From the numbers and flags that callers hand over to document 01's kinds:
// one function for each, for a job's bytes and for C.
// The contracts cite specs/Flagged and specs/Numbered.
#![tactic(auto)]

pub mod flagged;
pub mod numbered;
