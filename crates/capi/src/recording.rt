// The tests of a recording's input.
ghost use Rattle.std.specs.Prelude.{◌≡◌};
ghost use Rattle.base_terms.specs.Lists.{all_of};
ghost use Rattle.grid.specs.Values.{is_flag};
ghost use Rattle.grid.specs.Validate.{validity_of, refusal_of};
ghost use Rattle.capi.specs.Grid.{recording_of};

use grid::Readings;
use grid::validate::Recording;
use kinds::flagged;

// A recording with these numbers.
pub fn recording_of(
    sample_rate: u32,
    channels: u16,
    frame_rate: u32,
    hop: u32,
    len: u64,
    decibels: bool,
) -> Recording
    ensures { result ≡ recording_of sample_rate channels frame_rate hop len decibels }
{
    Recording {
        sample_rate,
        channels,
        frame_rate,
        hop,
        len,
        domain: flagged::domain_of(decibels),
    }
}

// Document 01's number for the first of the tests 1 to 6 that the recording fails, or 0.
pub fn buchawzer_validate(
    sample_rate: u32,
    channels: u16,
    frame_rate: u32,
    hop: u32,
    len: u64,
    decibels: bool,
    values: &[f32],
    flags: &[u8],
    levels: &[f64],
) -> u32
    ensures { result ≡ refusal_of (validity_of (recording_of sample_rate channels frame_rate hop len decibels)
        values.now flags.now levels.now) }
{
    let r = recording_of(sample_rate, channels, frame_rate, hop, len, decibels);
    let readings = Readings {
        values,
        flags,
        levels,
    };
    match r.validate(&readings) {
        Ok(()) => 0,
        Err(refusal) => u32::from(refusal),
    }
}

// Whether each flag byte is 0 or 1, as test 5 asks it of decibels: by itself, for the benchmark.
pub fn buchawzer_are_flags(flags: &[u8]) -> bool
    ensures { result ≡ all_of is_flag flags.now }
{
    grid::flags::are_flags(flags)
}
