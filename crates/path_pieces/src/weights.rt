// What cuts and piece lengths cost, in the Rust's words. Only the two weights of a length count for a path over given
// costs.
ghost use Rattle.std.specs.Prelude.{◌≡◌};
ghost use Rattle.path_pieces.specs.Pieces.{length_weights};

// Document 01's weights.
#[derive(Clone, Copy)]
pub struct Weights {
    // Fixed cost of every cut. Keeps free cuts in digital silence from multiplying.
    pub cut: f64,
    // Weight of the level at the cut.
    pub level: f64,
    // Weight of cutting outside a long pause.
    pub pause: f64,
    // Pause length that earns the full pause credit.
    pub pause_ref: u64,
    // Weight of the squared relative distance from the target length.
    pub target: f64,
    // Weight of pieces shorter than the minimum.
    pub short: f64,
}

// The weights of a path over given costs: what a cut costs is known, so those of a cut are not looked at.
pub fn length_weights(target: f64, short: f64) -> Weights
    ensures { result ≡ length_weights target short }
{
    Weights {
        cut: 0.0,
        level: 0.0,
        pause: 0.0,
        pause_ref: 0,
        target,
        short,
    }
}
