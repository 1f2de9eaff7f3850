// The tests of "path over lent candidates" that need no path: refusals 15, 16, 17, 8 and 13. The contract of
// `refusal::first_refusal` cites specs/Refusal; `accepted_lists` of specs/RefusalLaws says what is left for the search.
#![tactic(auto)]

pub mod costs;
pub mod ends;
pub mod refusal;
