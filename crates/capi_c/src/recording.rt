// The export of the tests of a recording's input.
ghost use Rattle.std.specs.Prelude.{◌≡◌};
ghost use Rattle.base_terms.specs.Lists.{all_of};
ghost use Rattle.grid.specs.Values.{is_flag};
ghost use Rattle.grid.specs.Validate.{validity_of, refusal_of};
ghost use Rattle.capi.specs.Grid.{recording_of};

use capi::recording;

#[unsafe(no_mangle)]
pub extern "C" fn buchawzer_validate(
    sample_rate: u32,
    channels: u16,
    frame_rate: u32,
    hop: u32,
    len: u64,
    decibels: bool,
    values: &[f32],
    flags: &[u8],
    levels: &[f64],
) -> u32
    ensures { result ≡ refusal_of (validity_of (recording_of sample_rate channels frame_rate hop len decibels)
        values.now flags.now levels.now) }
{
    recording::buchawzer_validate(
        sample_rate,
        channels,
        frame_rate,
        hop,
        len,
        decibels,
        values,
        flags,
        levels,
    )
}

#[unsafe(no_mangle)]
pub extern "C" fn buchawzer_are_flags(flags: &[u8]) -> bool
    ensures { result ≡ all_of is_flag flags.now }
{
    recording::buchawzer_are_flags(flags)
}
