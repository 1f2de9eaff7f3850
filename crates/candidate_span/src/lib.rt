// What a plan keeps of a recording, before any path is sought: the spacing of its candidates, the span, the dropped
// gaps and the kept frames.
// Contracts cite specs/Spacing, specs/Ending, specs/Bounds, specs/Span and specs/Kept; their laws stand beside them.
#![tactic(auto)]

pub mod bounds;
pub mod ending;
pub mod ends;
pub mod held;
pub mod kept;
pub mod listed;
pub mod padding;
pub mod spacing;
