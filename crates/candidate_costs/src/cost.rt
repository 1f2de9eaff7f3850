// What a cut costs.
ghost use Rattle.std.specs.Prelude.{◌≡◌};
ghost use Rattle.candidate_costs.specs.Cost.{pause_of, cut_cost};

use base_code::floats;
use grid::durations;
use path_pieces::weights::Weights;

// How much of the pause reference a stretch reaches, 1 at most.
#[tactic(auto, unfolding(crate::specs::Cost::pause_of))]
fn pause(weights: Weights, secs: f64) -> f64
    ensures { result ≡ pause_of weights secs }
{
    floats::min(secs / durations::as_secs_f64(weights.pause_ref), 1.0)
}

// What a cut costs at this level, in a stretch of so many seconds.
#[tactic(auto, unfolding(crate::specs::Cost::cut_cost))]
pub fn cut_cost(weights: Weights, level: f64, secs: f64) -> f64
    ensures { result ≡ cut_cost weights level secs }
{
    let loud = weights.level * level;
    let lacking = weights.pause * (1.0 - pause(weights, secs));
    // From the left, as the Rust adds them: a change of order would round otherwise.
    weights.cut + loud + lacking
}
