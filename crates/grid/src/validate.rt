// The tests of a recording's input, refusals 1 to 6, and the chain of them. None touches work memory.
ghost use Rattle.std.specs.Prelude.{◌≡◌};
ghost use Rattle.grid.specs.Boundary.{Bounded};
ghost use Rattle.grid.specs.Validate.{is_up_to, rate_ok, channels_ok, frame_step_ok, frames_ok, level_count};
ghost use Rattle.grid.specs.Validate.{lists_ok, values_ok, length_ok, grid_of, validity_of, number_of};

use crate::boundary::FrameGrid;
use crate::readings::Readings;
use crate::{flags, values};

pub const MAX_RATE: u32 = 768_000;

pub const MAX_FRAME_RATE: u32 = 192_000;

pub const MAX_HOP: u32 = 1_048_576;

pub const MAX_FRAMES: usize = 1_048_576;

pub const MAX_LEN: u64 = 1_099_511_627_776;

// What the frame values of a recording measure.
#[derive(Clone, Copy)]
pub enum Domain {
    // Frame level in dBFS of the high-passed signal.
    Decibels,
    // Speech probability from 0 to 1.
    Scores,
}

// The numbers of a recording. Its readings are lent beside it.
#[derive(Clone, Copy)]
pub struct Recording {
    pub sample_rate: u32,
    pub channels: u16,
    pub frame_rate: u32,
    pub hop: u32,
    pub len: u64,
    pub domain: Domain,
}

// The first test that a recording fails.
#[derive(Clone, Copy, Debug, PartialEq, Eq)]
pub enum Refusal {
    BadSampleRate,
    NoChannels,
    BadFrames,
    BadLists,
    BadValue,
    NotCovered,
}

// Document 01's number for each case.
impl From<Refusal> for u32 {
    ghost from_gives = { λ r n. n ≡ number_of r };

    fn from(r: Refusal) -> u32 {
        match r {
            Refusal::BadSampleRate => 1,
            Refusal::NoChannels => 2,
            Refusal::BadFrames => 3,
            Refusal::BadLists => 4,
            Refusal::BadValue => 5,
            Refusal::NotCovered => 6,
        }
    }
}

// Whether x is above 0 and at most `most`.
pub fn is_up_to(x: u32, most: u32) -> bool
    ensures { result ≡ is_up_to x most }
{
    0 < x && x <= most
}

// Test 1.
pub fn rate_ok(sample_rate: u32) -> bool
    ensures { result ≡ rate_ok sample_rate }
{
    is_up_to(sample_rate, MAX_RATE)
}

// Test 2.
pub fn channels_ok(channels: u16) -> bool
    ensures { result ≡ channels_ok channels }
{
    0 < channels
}

// Test 3 of the frame rate and the hop alone.
pub fn frame_step_ok(frame_rate: u32, hop: u32) -> bool
    ensures { result ≡ frame_step_ok frame_rate hop }
{
    is_up_to(frame_rate, MAX_FRAME_RATE) && is_up_to(hop, MAX_HOP)
}

// Test 3.
pub fn frames_ok(sample_rate: u32, frame_rate: u32, hop: u32) -> bool
    ensures { result ≡ frames_ok sample_rate frame_rate hop }
{
    frame_step_ok(frame_rate, hop) && frame_rate as u64 <= (hop as u64) * (sample_rate as u64)
}

// How many levels go with so many frames.
pub fn level_count(domain: Domain, frames: usize) -> usize
    ensures { result ≡ level_count domain frames }
{
    match domain {
        Domain::Decibels => frames,
        Domain::Scores => 0,
    }
}

// Test 4.
pub fn lists_ok(domain: Domain, frames: usize, flags: usize, levels: usize) -> bool
    ensures { result ≡ lists_ok domain frames flags levels }
{
    frames <= MAX_FRAMES && flags == frames && levels == level_count(domain, frames)
}

// Test 5 for decibels.
fn decibels_ok(readings: &Readings) -> bool
    ensures { result
        ≡ values_ok Domain.Decibels readings.now.values.now readings.now.flags.now readings.now.levels.now }
{
    values::every(readings.values, f32::is_finite)
        && flags::are_flags(readings.flags)
        && values::every(readings.levels, f64::is_finite)
}

// Test 5.
pub fn values_ok(domain: Domain, readings: &Readings) -> bool
    ensures { result ≡ values_ok domain readings.now.values.now readings.now.flags.now readings.now.levels.now }
{
    match domain {
        Domain::Decibels => decibels_ok(readings),
        Domain::Scores => {
            values::every(readings.values, values::is_score) && flags::are_unflagged(readings.flags)
        }
    }
}

// Test 6.
pub fn length_ok(grid: FrameGrid) -> bool
    requires { Bounded grid }
    ensures { result ≡ length_ok grid }
{
    grid.len <= MAX_LEN && grid.covered()
}

impl Recording {
    // The frame grid, for this many frame values.
    pub fn grid(self, frames: usize) -> FrameGrid
        ensures { result ≡ grid_of self frames }
    {
        FrameGrid {
            sample_rate: self.sample_rate,
            frame_rate: self.frame_rate,
            hop: self.hop,
            len: self.len,
            frames,
        }
    }

    // The tests 1 to 6 in order.
    // A line for each test: `(test).then_some(()).ok_or(Refusal::..)?` in its place says the same in more words.
    pub fn validate(self, readings: &Readings) -> Result<(), Refusal>
        ensures { result ≡ validity_of self readings.now.values.now readings.now.flags.now readings.now.levels.now }
    {
        let frames = readings.values.len();
        if !rate_ok(self.sample_rate) {
            return Err(Refusal::BadSampleRate);
        }
        if !channels_ok(self.channels) {
            return Err(Refusal::NoChannels);
        }
        if !frames_ok(self.sample_rate, self.frame_rate, self.hop) {
            return Err(Refusal::BadFrames);
        }
        if !lists_ok(
            self.domain,
            frames,
            readings.flags.len(),
            readings.levels.len(),
        ) {
            return Err(Refusal::BadLists);
        }
        if !values_ok(self.domain, readings) {
            return Err(Refusal::BadValue);
        }
        if !length_ok(self.grid(frames)) {
            return Err(Refusal::NotCovered);
        }
        Ok(())
    }
}
