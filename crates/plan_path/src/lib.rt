// The path over a plan's candidates, all in work memory: what is read and what is written stand in one list of each
// type, at offsets. Contracts cite specs/Search.antt for the places in them, specs/Held.antt for the path that is held,
// and specs/Within.antt of plan_lists for the parts of a list.
#![tactic(auto)]

pub mod by_count;
pub mod by_length;
pub mod search;
