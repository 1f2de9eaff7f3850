// The settings of a plan, in the Rust's words. Durations are in nanoseconds.
use path_pieces::mode::Mode;
use path_pieces::weights::Weights;

// What happens to the silence at a cut.
#[derive(Clone, Copy)]
pub enum Gap {
    // Nothing is dropped: the pieces joined in order are the recording.
    Keep,
    // The middle of a silence chosen for a cut is dropped, and so is what lies before the first sound and after the
    // last, but for the padding.
    Drop,
}

// Where to cut inside a silence that is longer than its padding.
#[derive(Clone, Copy)]
pub enum Placement {
    // At the lowest smoothed level.
    Quietest,
    // In the middle.
    Center,
    // At this fraction of the way through, from 0 (start) to 1 (end).
    Ratio(f32),
}

// How long pieces shall be, in time or by their number, what becomes of silence, and what cuts and lengths cost.
#[derive(Clone, Copy)]
pub struct PlanConfig {
    pub min: u64,
    pub target: u64,
    pub max: u64,
    pub mode: Mode,
    pub gap: Gap,
    pub placement: Placement,
    pub weights: Weights,
}
