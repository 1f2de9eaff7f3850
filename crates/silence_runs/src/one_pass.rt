// The list of silences in one pass over the frames, with no list of sound flags in between.
ghost use Rattle.std.specs.Prelude.{◌≡◌, ◌+◌, ◌≤◌, cond, eqb, length, drop};
ghost use Rattle.std.specs.List.{position, zip};
ghost use Rattle.std.proofs.lemmas.List.Edits.{sets};
ghost use Rattle.base_terms.specs.Lists.{onto};
ghost use Rattle.silence_runs.specs.Sounds.{sounds_of};
ghost use Rattle.silence_runs.specs.Silences.{silences_of};
ghost use Rattle.silence_runs.specs.OnePass.{sound_by, is_other, stay, next_frame};
ghost use Rattle.silence_runs.specs.OnePass.{lasts, silence_between, last_silence};

use grid::Readings;

// Whether a frame sounds by one threshold. Most frames that do not are told by their value alone.
#[tactic(auto, unfolding(crate::specs::OnePass::sound_by, crate::specs::Hysteresis::reached))]
fn sounds_by(threshold: f32, value: f32, flag: u8) -> bool
    ensures { result ≡ eqb (sound_by threshold value flag) 1 }
{
    threshold <= value && flag != 1
}

// Whether a frame's sound flag is another.
#[tactic(auto, unfolding(crate::specs::OnePass::is_other, crate::specs::OnePass::sound_by, crate::specs::Hysteresis::reached))]
fn is_other(threshold: f32, sound: bool, value: f32, flag: u8) -> bool
    ensures { result ≡ is_other threshold (cond sound 1 0) (value, flag) }
{
    sounds_by(threshold, value, flag) != sound
}

// The first frame whose sound flag is another.
fn first_other(threshold: f32, sound: bool, values: &[f32], flags: &[u8]) -> Option<usize>
    ensures { result ≡ position (is_other threshold (cond sound 1 0)) (zip values.now flags.now) }
{
    values
        .iter()
        .zip(flags)
        .position(|(value, flag)| is_other(threshold, sound, *value, *flag))
}

// The first frame at `from` or after it whose sound flag is another, or the end.
fn next_change(threshold: f32, sound: bool, readings: &Readings, from: usize) -> usize
    requires flags_len { length readings.now.flags.now ≡ length readings.now.values.now }
    requires from_in_bounds { from ≤ length readings.now.values.now }
    ensures { result
        ≡ from + stay threshold (cond sound 1 0)
        (drop from readings.now.values.now) (drop from readings.now.flags.now) }
{
    match first_other(
        threshold,
        sound,
        &readings.values[from..],
        &readings.flags[from..],
    ) {
        Some(passed) => from + passed,
        None => readings.values.len(),
    }
}

// The frame after frame i, of so many.
fn next_frame(i: usize, frames: usize) -> usize
    ensures { result ≡ next_frame i frames }
{
    if i < frames { i + 1 } else { frames }
}

// Whether n frames are a run, and not shorter than min.
#[tactic(auto, unfolding(crate::specs::OnePass::lasts))]
fn lasting(min: usize, n: usize) -> bool
    ensures { result ≡ lasts min n }
{
    min <= n && 0 < n
}

// Writes the silence between two frames to place `at`, where it lasts. Returns the place after it.
fn put_silence(out: &mut [u32], at: usize, min: usize, first: usize, end: usize) -> usize
    requires at_in_bounds { at + 2 ≤ length out.old }
    requires first_le_end { (first ≤ end) × (end ≤ 4294967295) }
    ensures value { result ≡ at + length (silence_between min first end) }
    ensures out_after { out.new ≡ sets out.old at (silence_between min first end) }
{
    if !lasting(min, end - first) {
        return at;
    }
    out[at] = first as u32;
    out[at + 1] = end as u32;
    at + 2
}

// Writes the silence after the last sound. Where there was no sound it stays, however short.
#[tactic(auto, unfolding(crate::specs::OnePass::last_silence))]
fn put_last(out: &mut [u32], at: usize, min_silence: usize, last: usize, frames: usize) -> usize
    requires at_in_bounds { at + 2 ≤ length out.old }
    requires last_le_frames { (last ≤ frames) × (frames ≤ 4294967295) }
    ensures value { result ≡ at + length (last_silence min_silence last frames) }
    ensures out_after { out.new ≡ sets out.old at (last_silence min_silence last frames) }
{
    let min = if last == 0 { 0 } else { min_silence };
    put_silence(out, at, min, last, frames)
}

// Writes the silences to the front of a list. Returns how many numbers they take.
pub fn list_silences(
    on: f32,
    off: f32,
    min_sound: usize,
    min_silence: usize,
    readings: &Readings,
    out: &mut [u32],
) -> usize
    requires { (length readings.now.flags.now ≡ length readings.now.values.now)
        × (length readings.now.values.now + 2 ≤ length out.old)
        × (length readings.now.values.now ≤ 4294967295) }
    ensures value { result
        ≡ length (silences_of (sounds_of on off min_sound min_silence
        readings.now.values.now readings.now.flags.now)) }
    ensures out_after { out.new
        ≡ onto (silences_of (sounds_of on off min_sound min_silence
        readings.now.values.now readings.now.flags.now)) out.old }
{
    let mut from = 0;
    // The frame after the last sound that was long enough, and the place of the next number.
    let mut last = 0;
    let mut at = 0;
    // A `while`: a turn passes one silence and one sound of any length, and counts no index.
    while from < readings.values.len() {
        let start = next_change(on, false, readings, from);
        let end = next_change(
            off,
            true,
            readings,
            next_frame(start, readings.values.len()),
        );
        if lasting(min_sound, end - start) {
            at = put_silence(out, at, min_silence, last, start);
            last = end;
        }
        from = next_frame(end, readings.values.len());
    }
    put_last(out, at, min_silence, last, readings.values.len())
}
