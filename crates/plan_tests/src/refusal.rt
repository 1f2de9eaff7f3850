// Test 7, and the chain of all tests before 14.
ghost use Rattle.std.specs.Prelude.{◌≡◌};
ghost use Rattle.plan_tests.specs.Refusal.{piece_lengths_ok, all_durations_ok, first_refusal_of, number_of};
ghost use Rattle.plan_tests.specs.declared.refusal.Refusal.TheVariants.{BadRecording};

use grid::durations::MAX_DURATION;
use grid::validate::Recording;
use grid::{Readings, validate};
use plan_settings::config::PlanConfig;
use silence_list::config::SegmentConfig;

// Why a test fails.
#[derive(Clone, Copy, Debug, PartialEq, Eq)]
pub enum Refusal {
    BadRecording(validate::Refusal),
    BadDurations,
    BadCount,
    BadRatio,
    BadWeights,
    BadThreshold,
    ShortWork,
}

// A recording that is refused makes the first test fail.
impl From<validate::Refusal> for Refusal {
    ghost from_gives = { λ x r. r ≡ BadRecording x };

    fn from(x: validate::Refusal) -> Refusal {
        Refusal::BadRecording(x)
    }
}

// Document 01's number for each case.
impl From<Refusal> for u32 {
    ghost from_gives = { λ r n. n ≡ number_of r };

    fn from(r: Refusal) -> u32 {
        match r {
            Refusal::BadRecording(x) => u32::from(x),
            Refusal::BadDurations => 7,
            Refusal::BadCount => 8,
            Refusal::BadRatio => 9,
            Refusal::BadWeights => 10,
            Refusal::BadThreshold => 11,
            Refusal::ShortWork => 13,
        }
    }
}

// Test 7 for what a piece should last.
#[tactic(auto, unfolding(crate::specs::Refusal::piece_lengths_ok))]
fn piece_lengths_ok(min: u64, target: u64, max: u64) -> bool
    ensures { result ≡ piece_lengths_ok min target max }
{
    min <= MAX_DURATION
        && target <= MAX_DURATION
        && max <= MAX_DURATION
        && target != 0
        && min <= target
        && target <= max
}

// Test 7.
#[tactic(auto, unfolding(crate::specs::Refusal::all_durations_ok))]
fn all_durations_ok(segment: SegmentConfig, settings: PlanConfig) -> bool
    ensures { result ≡ all_durations_ok segment settings }
{
    silence_list::config::durations_ok(segment)
        && piece_lengths_ok(settings.min, settings.target, settings.max)
}

// The tests in document 01's order. It reads the recording alone, and of work memory its lengths.
#[tactic(auto, unfolding(crate::specs::Refusal::first_refusal_of))]
pub fn first_refusal(
    r: Recording,
    segment: SegmentConfig,
    settings: PlanConfig,
    readings: &Readings,
    n32: usize,
    n64: usize,
    nf: usize,
) -> Result<(), Refusal>
    ensures { result ≡ first_refusal_of r segment settings
        readings.now.values.now readings.now.flags.now readings.now.levels.now n32 n64 nf }
{
    r.validate(readings)?;
    if !all_durations_ok(segment, settings) {
        return Err(Refusal::BadDurations);
    }
    if !path_tests::refusal::count_ok(settings.mode) {
        return Err(Refusal::BadCount);
    }
    if !plan_settings::tests::ratio_ok(settings.placement) {
        return Err(Refusal::BadRatio);
    }
    if !plan_settings::tests::weights_ok(settings.weights) {
        return Err(Refusal::BadWeights);
    }
    if !silence_list::config::threshold_ok(segment.threshold) {
        return Err(Refusal::BadThreshold);
    }
    if !base_code::work::work_ok(readings.values.len() + 1, n32, n64, nf) {
        return Err(Refusal::ShortWork);
    }
    Ok(())
}
