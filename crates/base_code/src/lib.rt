// Helpers that every other crate uses: writing to the front of a lent list, where each part of the work lists stands,
// clearing those lists, and functions on floats.
#![tactic(auto)]

pub mod floats;
pub mod front;
pub mod layout;
pub mod work;
