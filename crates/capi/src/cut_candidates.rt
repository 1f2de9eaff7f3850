// The operation "candidate list".
ghost use Rattle.std.specs.Prelude.{◌≡◌, T};
ghost use Rattle.std.specs.Float.{binary64};
ghost use Rattle.std.specs.Float.Ieee.{fits};
ghost use Rattle.base_terms.specs.Work.{work_of};
ghost use Rattle.plan_tests.specs.Fitting.{Fitting};
ghost use Rattle.candidate_list.specs.CandidateList.{output_of, candidate_list_of};
ghost use Rattle.capi.specs.Grid.{recording_of};
ghost use Rattle.capi.specs.Silences.{segment_of};
ghost use Rattle.capi.specs.Settings.{weights_of, plan_config_of};
ghost use Rattle.capi.specs.Candidates.{list_called, list_called_of};

use crate::{recording, settings, silences};
use candidate_list::list;
use grid::Readings;

// 0 where the list was made, and else document 01's number.
// Candidate i has its left boundary at ends[3 i], its right boundary at ends[3 i + 1],
// its reason (0 silence, 1 quiet, 2 forced) at ends[3 i + 2] and its cost at costs[i].
pub fn buchawzer_candidates(
    sample_rate: u32,
    channels: u16,
    frame_rate: u32,
    hop: u32,
    len: u64,
    decibels: bool,
    values: &[f32],
    flags: &[u8],
    levels: &[f64],
    threshold_kind: u8,
    threshold: f32,
    min_silence: u64,
    min_sound: u64,
    pre: u64,
    tail: u64,
    min: u64,
    target: u64,
    max: u64,
    by_count: bool,
    count: u32,
    drop_gaps: bool,
    placement_kind: u8,
    ratio: f32,
    cut: f64,
    level: f64,
    pause: f64,
    pause_ref: u64,
    target_weight: f64,
    short_weight: f64,
    work_u32: &mut [u32],
    work_u64: &mut [u64],
    work_f64: &mut [f64],
    ends: &mut [u32],
    costs: &mut [f64],
    found: &mut u64,
) -> u32
    ensures answer { list_called result found.new
        (output_of ends.new costs.new)
        (work_of work_u32.new work_u64.new work_f64.new)
        ≡ list_called_of
        (candidate_list_of
        (recording_of sample_rate channels frame_rate hop len decibels)
        (segment_of threshold_kind threshold min_silence min_sound pre tail)
        (plan_config_of min target max by_count count drop_gaps placement_kind ratio
        (weights_of cut level pause pause_ref target_weight short_weight))
        values.now flags.now levels.now
        (output_of ends.old costs.old)
        (work_of work_u32.old work_u64.old work_f64.old))
        found.old }
    ensures fitting { Fitting values.now levels.now }
    ensures cut_fits { T (fits binary64 cut) }
{
    let r = recording::recording_of(sample_rate, channels, frame_rate, hop, len, decibels);
    let segment = silences::segment_of(
        threshold_kind,
        threshold,
        min_silence,
        min_sound,
        pre,
        tail,
    );
    let weights = settings::weights_of(cut, level, pause, pause_ref, target_weight, short_weight);
    let plan = settings::plan_config(
        min,
        target,
        max,
        by_count,
        count,
        drop_gaps,
        placement_kind,
        ratio,
        weights,
    );
    let readings = Readings {
        values,
        flags,
        levels,
    };
    let answer = list::candidate_list(
        r, segment, plan, &readings, work_u32, work_u64, work_f64, ends, costs,
    );
    match answer {
        Ok(candidates) => {
            *found = candidates as u64;
            0
        }
        Err(error) => u32::from(error),
    }
}
