// The frame grid of a recording: boundaries, durations, and the tests of a recording's input (refusals 1 to 6).
// Contracts cite specs/Boundary, specs/Durations and specs/Validate; laws about them stand beside them.
#![tactic(auto)]

pub mod boundary;
pub mod durations;
pub mod flags;
pub mod readings;
pub mod validate;
pub mod values;

pub use boundary::FrameGrid;
pub use readings::Readings;
