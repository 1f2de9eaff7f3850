// Test 17: the costs of the cuts, and what is preferred of lengths. A NaN is outside every range.
ghost use Rattle.std.specs.Prelude.{◌≡◌};
ghost use Rattle.base_terms.specs.Lists.{all_of};
ghost use Rattle.path_tests.specs.Costs.{is_cost, is_target, is_min, lengths_ok};

use path_pieces::lengths::Lengths;

// The highest target and the highest minimum, in samples: 2^60.
const MAX_LENGTH: f64 = 1152921504606846976.0;

// The lowest target, in samples: 2^-40.
const MIN_TARGET: f64 = 0.0000000000009094947017729282379150390625;

// Whether x may be a cost or a weight: not negative, and finite. -0.0 is not below zero, and may.
pub fn is_cost(x: f64) -> bool
    ensures { result ≡ is_cost x }
{
    0.0 <= x && x < 1.0 / 0.0
}

// Whether each cost may be one, those of the first and the last candidate included.
pub fn costs_ok(cost: &[f64]) -> bool
    ensures { result ≡ all_of is_cost cost.now }
{
    cost.iter().all(|x| is_cost(*x))
}

// Whether x may be a target length.
fn is_target(x: f64) -> bool
    ensures { result ≡ is_target x }
{
    MIN_TARGET <= x && x <= MAX_LENGTH
}

// Whether x may be a minimum length.
fn is_min(x: f64) -> bool
    ensures { result ≡ is_min x }
{
    0.0 <= x && x <= MAX_LENGTH
}

// Both weights, the target and the minimum.
#[tactic(auto, unfolding(crate::specs::Costs::lengths_ok))]
pub fn lengths_ok(lengths: Lengths) -> bool
    ensures { result ≡ lengths_ok lengths }
{
    let weights = lengths.weights;
    is_cost(weights.target)
        && is_cost(weights.short)
        && is_target(lengths.target)
        && is_min(lengths.min)
}
