// Boundaries and durations. Outside document 01's limits a number is answered by 2^64 - 1, and a float by -1,
// markers that the C interface has.
ghost use Rattle.std.specs.Prelude.{◌≡◌, ◌&&◌};
ghost use Rattle.grid.specs.Boundary.{boundary_of, covers};
ghost use Rattle.grid.specs.Durations.{frames_in, frames_ceil, frames_floor, samples_floor, samples_in};
ghost use Rattle.grid.specs.Durations.{seconds_of, frame_secs_of};
ghost use Rattle.capi.specs.Grid.{frames_args, samples_args, grid_args, number_if, float_if, grid_with};

use grid::{FrameGrid, durations, validate};

// The answer where there is no number.
const NO_NUMBER: u64 = 18_446_744_073_709_551_615;

// Whether a duration has a number of frames.
#[tactic(auto, unfolding(crate::specs::Grid::frames_args))]
fn frames_args(frame_rate: u32, hop: u32, nanos: u64) -> bool
    ensures { result ≡ frames_args frame_rate hop nanos }
{
    validate::frame_step_ok(frame_rate, hop) && durations::duration_ok(nanos)
}

// Whether a duration has a number of samples.
#[tactic(auto, unfolding(crate::specs::Grid::samples_args))]
fn samples_args(sample_rate: u32, nanos: u64) -> bool
    ensures { result ≡ samples_args sample_rate nanos }
{
    validate::rate_ok(sample_rate) && durations::duration_ok(nanos)
}

// Whether a grid has boundaries.
#[tactic(auto, unfolding(crate::specs::Grid::grid_args))]
fn grid_args(g: FrameGrid) -> bool
    ensures { result ≡ grid_args g }
{
    validate::rate_ok(g.sample_rate)
        && validate::frame_step_ok(g.frame_rate, g.hop)
        && g.frames <= validate::MAX_FRAMES
        && g.len <= validate::MAX_LEN
}

// Boundary k of the grid with these numbers.
pub fn buchawzer_boundary(
    sample_rate: u32,
    frame_rate: u32,
    hop: u32,
    len: u64,
    frames: usize,
    k: usize,
) -> u64
    ensures { result ≡ number_if (grid_args (grid_with sample_rate frame_rate hop len frames))
        (boundary_of (grid_with sample_rate frame_rate hop len frames) k) }
{
    let g = FrameGrid {
        sample_rate,
        frame_rate,
        hop,
        len,
        frames,
    };
    if grid_args(g) {
        g.position(k)
    } else {
        NO_NUMBER
    }
}

// A duration in whole frames, rounded half up. The three ways of rounding stay three functions: each is an export that C
// names, and one body with the way as a closure would need a `requires` for it.
pub fn buchawzer_frames_in(frame_rate: u32, hop: u32, nanos: u64) -> u64
    ensures { result ≡ number_if (frames_args frame_rate hop nanos) (frames_in frame_rate hop nanos) }
{
    if frames_args(frame_rate, hop, nanos) {
        durations::frames_in(frame_rate, hop, nanos)
    } else {
        NO_NUMBER
    }
}

// A duration in whole frames, rounded up.
pub fn buchawzer_frames_ceil(frame_rate: u32, hop: u32, nanos: u64) -> u64
    ensures { result ≡ number_if (frames_args frame_rate hop nanos) (frames_ceil frame_rate hop nanos) }
{
    if frames_args(frame_rate, hop, nanos) {
        durations::frames_ceil(frame_rate, hop, nanos)
    } else {
        NO_NUMBER
    }
}

// A duration in whole frames, rounded down.
pub fn buchawzer_frames_floor(frame_rate: u32, hop: u32, nanos: u64) -> u64
    ensures { result ≡ number_if (frames_args frame_rate hop nanos) (frames_floor frame_rate hop nanos) }
{
    if frames_args(frame_rate, hop, nanos) {
        durations::frames_floor(frame_rate, hop, nanos)
    } else {
        NO_NUMBER
    }
}

// A duration in whole samples, rounded down.
pub fn buchawzer_samples_floor(sample_rate: u32, nanos: u64) -> u64
    ensures { result ≡ number_if (samples_args sample_rate nanos) (samples_floor sample_rate nanos) }
{
    if samples_args(sample_rate, nanos) {
        durations::samples_floor(sample_rate, nanos)
    } else {
        NO_NUMBER
    }
}

// A duration in samples as a float.
pub fn buchawzer_samples_in(sample_rate: u32, nanos: u64) -> f64
    ensures { result ≡ float_if (samples_args sample_rate nanos) (samples_in sample_rate nanos) }
{
    if samples_args(sample_rate, nanos) {
        durations::samples_in(sample_rate, nanos)
    } else {
        -1.0
    }
}

// A duration in seconds.
pub fn buchawzer_seconds(nanos: u64) -> f64
    ensures { result ≡ float_if (samples_args 1 nanos) (seconds_of nanos) }
{
    if samples_args(1, nanos) {
        durations::as_secs_f64(nanos)
    } else {
        -1.0
    }
}

// One frame in seconds.
pub fn buchawzer_frame_secs(frame_rate: u32, hop: u32) -> f64
    ensures { result ≡ float_if (frames_args frame_rate hop 0) (frame_secs_of frame_rate hop) }
{
    if frames_args(frame_rate, hop, 0) {
        durations::frame_secs(frame_rate, hop)
    } else {
        -1.0
    }
}

// Whether the frames cover the length; no grid outside the limits does.
pub fn buchawzer_covers(
    sample_rate: u32,
    frame_rate: u32,
    hop: u32,
    len: u64,
    frames: usize,
) -> bool
    ensures { result ≡ (grid_args (grid_with sample_rate frame_rate hop len frames)
        && covers (grid_with sample_rate frame_rate hop len frames)) }
{
    let g = FrameGrid {
        sample_rate,
        frame_rate,
        hop,
        len,
        frames,
    };
    grid_args(g) && g.covered()
}
