// What a recording's candidates are made from, written to work memory: its silences, the stretches below off and
// the levels of its boundaries.
ghost use Rattle.std.specs.Prelude.{◌≡◌, true, ◌+◌, ◌*◌, ◌≤◌, ◌<◌, length, take};
ghost use Rattle.base_terms.specs.Lists.{all_of};
ghost use Rattle.grid.specs.Limits.{max_frames};
ghost use Rattle.grid.specs.Values.{is_finite};
ghost use Rattle.silence_levels.specs.Levels.{levels_of};
ghost use Rattle.silence_runs.specs.Quiet.{below_off, quiet_runs};
ghost use Rattle.silence_list.specs.Silences.{silences_in};
ghost use Rattle.silence_list.specs.RefusalLaws.{SoundReady};
ghost use Rattle.candidate_finder.specs.CandidatesIn.{recording_levels};
ghost use Rattle.candidate_finder.specs.NeededLevels.{needed_levels};
ghost use Rattle.candidate_finder.specs.Holds.{Measurable, Holds};

use base_code::layout::Layout;
use candidate_costs::{level, window};
use grid::validate::{Domain, Recording};
use grid::{Readings, durations};
use silence_levels::threshold::{Levels, Threshold};
use silence_list::config::SegmentConfig;
use silence_runs::{one_pass, quiet};

// The levels as far as later steps look at them. Scores are on their scale already: no percentile is sought for it.
fn needed_levels(
    domain: Domain,
    threshold: Threshold,
    readings: &Readings,
    keys: &mut [u32],
) -> Levels
    requires values_len_bound { length readings.now.values.now ≤ max_frames }
    requires flags_len { length readings.now.flags.now ≡ length readings.now.values.now }
    requires values_in_bounds { length readings.now.values.now ≤ length keys.old }
    requires values_finite { all_of is_finite readings.now.values.now ≡ true }
    ensures { result
        ≡ needed_levels domain (levels_of domain threshold readings.now.values.now readings.now.flags.now) }
{
    match domain {
        Domain::Decibels => silence_levels::levels(domain, threshold, readings, keys),
        Domain::Scores => {
            let t = silence_levels::thresholds(domain, threshold, readings, keys);
            Levels {
                floor: 0.0,
                reference: 0.0,
                on: t.on,
                off: t.off,
            }
        }
    }
}

// Levels and number of silences.
#[derive(Clone, Copy)]
pub struct LevelsAndSilences {
    pub levels: Levels,
    pub silences: usize,
}

// The levels of a recording, and its silences at the front of a list. The keys of percentiles stand there before.
fn levels_and_silences(
    r: Recording,
    segment: SegmentConfig,
    readings: &Readings,
    list: &mut [u32],
) -> LevelsAndSilences
    requires sound_ready { SoundReady r segment readings.now.values.now readings.now.flags.now }
    requires values_in_bounds { length readings.now.values.now + 2 ≤ length list.old }
    ensures levels_value { result.levels
        ≡ needed_levels r.domain
        (recording_levels r segment readings.now.values.now readings.now.flags.now) }
    ensures silences_value { 2 * result.silences
        ≡ length (silences_in r segment readings.now.values.now readings.now.flags.now) }
    ensures list_after { take (2 * result.silences) list.new
        ≡ silences_in r segment readings.now.values.now readings.now.flags.now }
{
    let l = needed_levels(r.domain, segment.threshold, readings, list);
    let min_sound = durations::frames_in(r.frame_rate, r.hop, segment.min_sound);
    let min_silence = durations::frames_in(r.frame_rate, r.hop, segment.min_silence);
    let numbers = one_pass::list_silences(
        l.on,
        l.off,
        min_sound as usize,
        min_silence as usize,
        readings,
        list,
    );
    LevelsAndSilences {
        levels: l,
        silences: numbers / 2,
    }
}

// For each frame the length of its stretch below off.
fn quiet_stretches(off: f32, readings: &Readings, runs: &mut [u32])
    requires flags_len { length readings.now.flags.now ≡ length readings.now.values.now }
    requires runs_len { length runs.old ≡ length readings.now.values.now }
    requires values_len_bound { length readings.now.values.now ≤ max_frames }
    ensures { runs.new ≡ quiet_runs (below_off off readings.now.values.now readings.now.flags.now) }
{
    quiet::below_off(off, readings, runs);
    quiet::quiet_runs(runs);
}

// The silences, each frame's stretch below off, and the level of each boundary. Returns the number of silences.
pub fn hold(
    r: Recording,
    segment: SegmentConfig,
    readings: &Readings,
    work_u32: &mut [u32],
    work_f64: &mut [f64],
) -> usize
    requires measurable { Measurable r segment
        readings.now.values.now readings.now.flags.now readings.now.levels.now
        (length work_u32.old) (length work_f64.old) }
    requires values_nonzero { 0 < length readings.now.values.now }
    ensures { Holds r segment readings.now.values.now readings.now.flags.now readings.now.levels.now
        result work_u32.new work_f64.new }
{
    let n = readings.values.len();
    let found = levels_and_silences(r, segment, readings, work_u32);
    let places = Layout { frames: n };
    let at = places.runs_at();
    quiet_stretches(found.levels.off, readings, &mut work_u32[at..at + n]);
    let width = window::smoothing_width(r.frame_rate, r.hop);
    level::fill_levels(r.domain, found.levels, width, readings, work_f64);
    found.silences
}
