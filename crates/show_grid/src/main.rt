// Shows the frame grid of document 01's recording R: its frames, which lengths its seven frames cover, and durations on
// its grid.
#![tactic(auto)]

ghost use Rattle.std.specs.Prelude.{◌<◌};

use capi::{convert, recording};
use std::fmt::Display;

const SAMPLE_RATE: u32 = 1_000;

const FRAME_RATE: u32 = 10;

const HOP: u32 = 1;

const FRAMES: usize = 7;

const LEN: u64 = 700;

// A part of a line, written by itself. Where it can't be written the next is tried.
fn say(rt: &impl Print, part: impl Display + Drop) {
    let _ = rt.print(part);
}

// The sample at which a frame begins, and the one before it ends.
fn boundary(k: usize) -> u64 {
    convert::buchawzer_boundary(SAMPLE_RATE, FRAME_RATE, HOP, LEN, FRAMES, k)
}

// From which sample to which a frame goes.
fn show_frame(rt: &impl Print, k: usize)
    requires { k < 7 }
{
    say(rt, "frame ");
    say(rt, k);
    say(rt, ": samples ");
    say(rt, boundary(k));
    say(rt, " up to ");
    say(rt, boundary(k + 1));
    say(rt, "\n");
}

// Whether the seven frames cover a recording of this length.
fn show_length(rt: &impl Print, len: u64) {
    let scores = [1.0f32, 1.0, 0.0, 0.0, 0.0, 1.0, 1.0];
    let flags = [0u8; 7];
    let levels = [0.0f64; 0];
    let refusal = recording::buchawzer_validate(
        SAMPLE_RATE,
        1,
        FRAME_RATE,
        HOP,
        len,
        false,
        &scores,
        &flags,
        &levels,
    );
    say(rt, "length ");
    say(rt, len);
    if refusal == 0 {
        say(rt, ": accepted\n");
    } else {
        say(rt, ": refused ");
        say(rt, refusal);
        say(rt, "\n");
    }
}

// A duration in samples and in frames, by each way of rounding.
fn show_duration(rt: &impl Print, millis: u32) {
    let nanos = u64::from(millis) * 1_000_000;
    say(rt, millis);
    say(rt, " ms: ");
    say(rt, convert::buchawzer_samples_floor(SAMPLE_RATE, nanos));
    say(rt, " samples; frames half up ");
    say(rt, convert::buchawzer_frames_in(FRAME_RATE, HOP, nanos));
    say(rt, ", up ");
    say(rt, convert::buchawzer_frames_ceil(FRAME_RATE, HOP, nanos));
    say(rt, ", down ");
    say(rt, convert::buchawzer_frames_floor(FRAME_RATE, HOP, nanos));
    say(rt, "\n");
}

// All of it, a line for each.
fn main(rt: HostRuntime) {
    say(
        &rt,
        "recording R: 1000 Hz, frame rate 10, hop 1, length 700, seven scores\n",
    );
    for k in 0..FRAMES {
        show_frame(&rt, k);
    }
    for len in [600, 601, 799, 800] {
        show_length(&rt, len);
    }
    for millis in [100, 150, 250] {
        show_duration(&rt, millis);
    }
}
