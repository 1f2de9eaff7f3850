// The operation "path over lent candidates": tests 15, 16, 17, 8 and 13, the search by length or by count, 14 and 12.
// Its contract is one equation with specs/Operation.antt's `path_of`; specs/Theorems.antt says what that means of the
// path.
#![tactic(auto)]

pub mod copy;
pub mod operation;
pub mod search;
