// A silence's own candidate: where it is cut, and at which level.
// Contracts cite specs/Place and specs/Cut; laws about them stand beside them.
#![tactic(auto)]

pub mod cut;
pub mod place;
