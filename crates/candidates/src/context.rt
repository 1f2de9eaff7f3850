// What candidates are made with, beside the recording's own lists.
// It is the Rust's `Context` with numbers for its references.
use candidate_span::padding::Padding;
use path_pieces::weights::Weights;
use plan_settings::config::{Gap, Placement};

// The settings and numbers that every candidate of a plan is made with.
#[derive(Clone, Copy)]
pub struct Context {
    pub gap: Gap,
    pub placement: Placement,
    pub weights: Weights,
    // How long a frame lasts in seconds.
    pub frame_secs: f64,
    // How many frames the recording has, and how much silence is kept beside sound.
    pub padding: Padding,
}
