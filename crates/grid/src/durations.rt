// Durations in nanoseconds as frames, samples or seconds.
ghost use Rattle.std.specs.Prelude.{◌≡◌, ◌≤◌};
ghost use Rattle.grid.specs.Limits.{max_frame_rate, max_duration};
ghost use Rattle.grid.specs.Durations.{duration_ok, InFrames, InSamples, frames_num, frames_in, frames_ceil, frames_floor};
ghost use Rattle.grid.specs.Durations.{samples_floor, samples_in, seconds_of, frame_secs_of};

pub const NANOS_PER_SEC: u64 = 1_000_000_000;
// 24 hours.
pub const MAX_DURATION: u64 = 86_400_000_000_000;

// Test 7 of one duration.
pub fn duration_ok(nanos: u64) -> bool
    ensures { result ≡ duration_ok nanos }
{
    nanos <= MAX_DURATION
}

// The exact product of a duration and a frame rate: 24 hours times the highest one fits in 64 bits.
fn product(nanos: u64, frame_rate: u32) -> u64
    requires nanos_le_max_duration { nanos ≤ max_duration }
    requires frame_rate_le_max_frame_rate { frame_rate ≤ max_frame_rate }
    ensures { result ≡ frames_num frame_rate nanos }
{
    nanos * (frame_rate as u64)
}

// A duration in whole frames, rounded half up.
// Three functions, as the C interface has three names: each is one expression, and one over a rounding is no plainer.
pub fn frames_in(frame_rate: u32, hop: u32, nanos: u64) -> u64
    requires { InFrames frame_rate hop nanos }
    ensures { result ≡ frames_in frame_rate hop nanos }
{
    let den = (hop as u64) * NANOS_PER_SEC;
    (product(nanos, frame_rate) + den / 2) / den
}

// A duration in whole frames, rounded up.
pub fn frames_ceil(frame_rate: u32, hop: u32, nanos: u64) -> u64
    requires { InFrames frame_rate hop nanos }
    ensures { result ≡ frames_ceil frame_rate hop nanos }
{
    product(nanos, frame_rate).div_ceil((hop as u64) * NANOS_PER_SEC)
}

// A duration in whole frames, rounded down.
pub fn frames_floor(frame_rate: u32, hop: u32, nanos: u64) -> u64
    requires { InFrames frame_rate hop nanos }
    ensures { result ≡ frames_floor frame_rate hop nanos }
{
    product(nanos, frame_rate) / ((hop as u64) * NANOS_PER_SEC)
}

// A duration in whole samples, rounded down: those of its whole seconds and those of the rest.
// 24 hours times the highest sample rate does not fit in 64 bits; either part does.
pub fn samples_floor(sample_rate: u32, nanos: u64) -> u64
    requires { InSamples sample_rate nanos }
    ensures { result ≡ samples_floor sample_rate nanos }
{
    let rate = sample_rate as u64;
    let rest = (nanos % NANOS_PER_SEC) * rate / NANOS_PER_SEC;
    (nanos / NANOS_PER_SEC) * rate + rest
}

// A duration in samples as a float: the whole product is rounded, and then divided.
// Duration and rate are exact as floats, so that their product as floats is the whole product rounded once.
pub fn samples_in(sample_rate: u32, nanos: u64) -> f64
    requires { InSamples sample_rate nanos }
    ensures { result ≡ samples_in sample_rate nanos }
{
    (nanos as f64) * (sample_rate as f64) / (NANOS_PER_SEC as f64)
}

// A duration in seconds, as Rust's `Duration::as_secs_f64`.
pub fn as_secs_f64(nanos: u64) -> f64
    ensures { result ≡ seconds_of nanos }
{
    ((nanos / NANOS_PER_SEC) as f64) + ((nanos % NANOS_PER_SEC) as f64) / (NANOS_PER_SEC as f64)
}

// One frame in seconds.
pub fn frame_secs(frame_rate: u32, hop: u32) -> f64
    ensures { result ≡ frame_secs_of frame_rate hop }
{
    (hop as f64) / (frame_rate as f64)
}
