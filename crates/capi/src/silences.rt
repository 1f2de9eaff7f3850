// The operation "silence list".
ghost use Rattle.std.specs.Prelude.{◌≡◌};
ghost use Rattle.base_terms.specs.Work.{work_of};
ghost use Rattle.silence_list.specs.Silences.{silence_list_of};
ghost use Rattle.capi.specs.Grid.{recording_of};
ghost use Rattle.capi.specs.Silences.{segment_of, silences_called, silences_called_of};

use crate::recording;
use grid::Readings;
use kinds::numbered;
use silence_list::config::SegmentConfig;
use silence_list::list;

// The segment settings with these numbers.
pub fn segment_of(
    threshold_kind: u8,
    threshold: f32,
    min_silence: u64,
    min_sound: u64,
    pre: u64,
    tail: u64,
) -> SegmentConfig
    ensures { result ≡ segment_of threshold_kind threshold min_silence min_sound pre tail }
{
    SegmentConfig {
        threshold: numbered::threshold_of(threshold_kind, threshold),
        min_silence,
        min_sound,
        pre,
        tail,
    }
}

// 0 where the list was made, and else document 01's number (`silences_called_zero`).
// Silence i has its first frame at out[2 i] and the frame after its last at out[2 i + 1].
pub fn buchawzer_silence_list(
    sample_rate: u32,
    channels: u16,
    frame_rate: u32,
    hop: u32,
    len: u64,
    decibels: bool,
    values: &[f32],
    flags: &[u8],
    levels: &[f64],
    threshold_kind: u8,
    threshold: f32,
    min_silence: u64,
    min_sound: u64,
    pre: u64,
    tail: u64,
    work_u32: &mut [u32],
    work_u64: &mut [u64],
    work_f64: &mut [f64],
    out: &mut [u32],
    count: &mut u64,
) -> u32
    ensures { silences_called result count.new out.new
        (work_of work_u32.new work_u64.new work_f64.new)
        ≡ silences_called_of
        (silence_list_of (recording_of sample_rate channels frame_rate hop len decibels)
        (segment_of threshold_kind threshold min_silence min_sound pre tail)
        values.now flags.now levels.now out.old
        (work_of work_u32.old work_u64.old work_f64.old))
        count.old }
{
    let r = recording::recording_of(sample_rate, channels, frame_rate, hop, len, decibels);
    let c = segment_of(threshold_kind, threshold, min_silence, min_sound, pre, tail);
    let readings = Readings {
        values,
        flags,
        levels,
    };
    match list::silence_list(r, c, &readings, work_u32, work_u64, work_f64, out) {
        Ok(silences) => {
            *count = silences as u64;
            0
        }
        Err(error) => u32::from(error),
    }
}
