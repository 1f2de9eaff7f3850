// The tests before 12, and the chain of them. None touches work memory.
ghost use Rattle.std.specs.Prelude.{◌≡◌};
ghost use Rattle.silence_list.specs.Refusal.{first_refusal_of, number_of};
ghost use Rattle.silence_list.specs.declared.refusal.Refusal.TheVariants.{BadRecording};

use crate::config;
use crate::config::SegmentConfig;
use base_code::work;
use grid::validate::Recording;
use grid::{Readings, validate};

// Why a test fails.
#[derive(Clone, Copy, Debug, PartialEq, Eq)]
pub enum Refusal {
    BadRecording(validate::Refusal),
    LongDuration,
    BadThreshold,
    ShortWork,
}

// A recording that is refused makes the first test fail.
impl From<validate::Refusal> for Refusal {
    ghost from_gives = { λ x r. r ≡ BadRecording x };

    fn from(x: validate::Refusal) -> Refusal {
        Refusal::BadRecording(x)
    }
}

// Document 01's number for each case.
impl From<Refusal> for u32 {
    ghost from_gives = { λ r n. n ≡ number_of r };

    fn from(r: Refusal) -> u32 {
        match r {
            Refusal::BadRecording(x) => u32::from(x),
            Refusal::LongDuration => 7,
            Refusal::BadThreshold => 11,
            Refusal::ShortWork => 13,
        }
    }
}

// The tests in document 01's order. It reads the recording alone, and of work memory its lengths.
#[tactic(auto, unfolding(crate::specs::Refusal::first_refusal_of))]
pub fn first_refusal(
    r: Recording,
    c: SegmentConfig,
    readings: &Readings,
    n32: usize,
    n64: usize,
    nf: usize,
) -> Result<(), Refusal>
    ensures { result ≡ first_refusal_of r c
        readings.now.values.now readings.now.flags.now readings.now.levels.now n32 n64 nf }
{
    r.validate(readings)?;
    if !config::durations_ok(c) {
        return Err(Refusal::LongDuration);
    }
    if !config::threshold_ok(c.threshold) {
        return Err(Refusal::BadThreshold);
    }
    if !work::work_ok(readings.values.len() + 1, n32, n64, nf) {
        return Err(Refusal::ShortWork);
    }
    Ok(())
}
