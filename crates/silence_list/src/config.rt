// How frame values become silence and sound, and the tests of these settings.
ghost use Rattle.std.specs.Prelude.{◌≡◌};
ghost use Rattle.silence_list.specs.Refusal.{durations_ok};
ghost use Rattle.silence_levels.specs.Threshold.{threshold_ok};

use grid::durations;
use silence_levels::threshold::Threshold;

// Durations are in nanoseconds.
#[derive(Clone, Copy)]
pub struct SegmentConfig {
    pub threshold: Threshold,
    // Silence shorter than this counts as sound, so stop closures inside words stay whole.
    pub min_silence: u64,
    // Sound shorter than this counts as silence, which removes clicks.
    pub min_sound: u64,
    // Silence kept before sound, and after it. The list of silences does not look at them, and tests them all the same.
    pub pre: u64,
    pub tail: u64,
}

// Test 7.
#[tactic(auto, unfolding(crate::specs::Refusal::durations_ok))]
pub fn durations_ok(c: SegmentConfig) -> bool
    ensures { result ≡ durations_ok c }
{
    durations::duration_ok(c.min_silence)
        && durations::duration_ok(c.min_sound)
        && durations::duration_ok(c.pre)
        && durations::duration_ok(c.tail)
}

// Test 11.
#[tactic(auto, unfolding(silence_levels::specs::Threshold::threshold_ok))]
pub fn threshold_ok(t: Threshold) -> bool
    ensures { result ≡ threshold_ok t }
{
    match t {
        Threshold::Auto => true,
        Threshold::Abs(v) => grid::values::is_finite_f32(v),
        Threshold::BelowRef(v) => grid::values::is_finite_f32(v),
    }
}
