// The program `cutplan` over its input and output. C's `main` (program/cutplan.c) returns its status,
// and says on standard error what its number means.
#![tactic(auto)]

pub mod program;
