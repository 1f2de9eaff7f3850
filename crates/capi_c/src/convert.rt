// The exports of boundaries and durations.
ghost use Rattle.std.specs.Prelude.{◌≡◌, ◌&&◌};
ghost use Rattle.grid.specs.Boundary.{boundary_of, covers};
ghost use Rattle.grid.specs.Durations.{frames_in, frames_ceil, frames_floor, samples_floor, samples_in};
ghost use Rattle.grid.specs.Durations.{seconds_of, frame_secs_of};
ghost use Rattle.capi.specs.Grid.{frames_args, samples_args, grid_args, number_if, float_if, grid_with};

use capi::convert;

#[unsafe(no_mangle)]
pub extern "C" fn buchawzer_boundary(
    sample_rate: u32,
    frame_rate: u32,
    hop: u32,
    len: u64,
    frames: usize,
    k: usize,
) -> u64
    ensures { result ≡ number_if (grid_args (grid_with sample_rate frame_rate hop len frames))
        (boundary_of (grid_with sample_rate frame_rate hop len frames) k) }
{
    convert::buchawzer_boundary(sample_rate, frame_rate, hop, len, frames, k)
}

#[unsafe(no_mangle)]
pub extern "C" fn buchawzer_frames_in(frame_rate: u32, hop: u32, nanos: u64) -> u64
    ensures { result ≡ number_if (frames_args frame_rate hop nanos) (frames_in frame_rate hop nanos) }
{
    convert::buchawzer_frames_in(frame_rate, hop, nanos)
}

#[unsafe(no_mangle)]
pub extern "C" fn buchawzer_frames_ceil(frame_rate: u32, hop: u32, nanos: u64) -> u64
    ensures { result ≡ number_if (frames_args frame_rate hop nanos) (frames_ceil frame_rate hop nanos) }
{
    convert::buchawzer_frames_ceil(frame_rate, hop, nanos)
}

#[unsafe(no_mangle)]
pub extern "C" fn buchawzer_frames_floor(frame_rate: u32, hop: u32, nanos: u64) -> u64
    ensures { result ≡ number_if (frames_args frame_rate hop nanos) (frames_floor frame_rate hop nanos) }
{
    convert::buchawzer_frames_floor(frame_rate, hop, nanos)
}

#[unsafe(no_mangle)]
pub extern "C" fn buchawzer_samples_floor(sample_rate: u32, nanos: u64) -> u64
    ensures { result ≡ number_if (samples_args sample_rate nanos) (samples_floor sample_rate nanos) }
{
    convert::buchawzer_samples_floor(sample_rate, nanos)
}

#[unsafe(no_mangle)]
pub extern "C" fn buchawzer_samples_in(sample_rate: u32, nanos: u64) -> f64
    ensures { result ≡ float_if (samples_args sample_rate nanos) (samples_in sample_rate nanos) }
{
    convert::buchawzer_samples_in(sample_rate, nanos)
}

#[unsafe(no_mangle)]
pub extern "C" fn buchawzer_seconds(nanos: u64) -> f64
    ensures { result ≡ float_if (samples_args 1 nanos) (seconds_of nanos) }
{
    convert::buchawzer_seconds(nanos)
}

#[unsafe(no_mangle)]
pub extern "C" fn buchawzer_frame_secs(frame_rate: u32, hop: u32) -> f64
    ensures { result ≡ float_if (frames_args frame_rate hop 0) (frame_secs_of frame_rate hop) }
{
    convert::buchawzer_frame_secs(frame_rate, hop)
}

#[unsafe(no_mangle)]
pub extern "C" fn buchawzer_covers(
    sample_rate: u32,
    frame_rate: u32,
    hop: u32,
    len: u64,
    frames: usize,
) -> bool
    ensures { result ≡ (grid_args (grid_with sample_rate frame_rate hop len frames)
        && covers (grid_with sample_rate frame_rate hop len frames)) }
{
    convert::buchawzer_covers(sample_rate, frame_rate, hop, len, frames)
}
