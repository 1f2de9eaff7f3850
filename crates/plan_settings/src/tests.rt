// The tests of a plan's settings that look at one setting each: 9 and 10.
ghost use Rattle.std.specs.Prelude.{◌≡◌};
ghost use Rattle.plan_settings.specs.Tests.{is_weight, is_cut_cost, is_reference, ratio_ok, weights_ok};

use crate::config::Placement;
use path_pieces::weights::Weights;

// Test 9, for a ratio only.
#[tactic(auto, unfolding(crate::specs::Tests::ratio_ok))]
pub fn ratio_ok(placement: Placement) -> bool
    ensures { result ≡ ratio_ok placement }
{
    match placement {
        Placement::Quietest => true,
        Placement::Center => true,
        Placement::Ratio(ratio) => grid::values::is_score(ratio),
    }
}

// Whether x is finite and not negative.
fn is_weight(x: f64) -> bool
    ensures { result ≡ is_weight x }
{
    grid::values::is_finite_f64(x) && 0.0 <= x
}

// Whether x is finite and above zero.
fn is_cut_cost(x: f64) -> bool
    ensures { result ≡ is_cut_cost x }
{
    grid::values::is_finite_f64(x) && 0.0 < x
}

// Whether a pause reference is above zero and at most 24 hours.
#[tactic(auto, unfolding(crate::specs::Tests::is_reference))]
fn is_reference(nanos: u64) -> bool
    ensures { result ≡ is_reference nanos }
{
    0 < nanos && nanos <= grid::durations::MAX_DURATION
}

// Test 10.
#[tactic(auto, unfolding(crate::specs::Tests::weights_ok))]
pub fn weights_ok(weights: Weights) -> bool
    ensures { result ≡ weights_ok weights }
{
    is_weight(weights.level)
        && is_weight(weights.pause)
        && is_weight(weights.target)
        && is_weight(weights.short)
        && is_cut_cost(weights.cut)
        && is_reference(weights.pause_ref)
}
