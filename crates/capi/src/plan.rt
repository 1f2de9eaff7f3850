// The operation Plan.
ghost use Rattle.std.specs.Prelude.{◌≡◌};
ghost use Rattle.base_terms.specs.Work.{work_of};
ghost use Rattle.plan_tests.specs.Fitting.{Fitting};
ghost use Rattle.plan_pieces.specs.Output.{output_of};
ghost use Rattle.planner.specs.Operation.{plan_of};
ghost use Rattle.capi.specs.Grid.{recording_of};
ghost use Rattle.capi.specs.Silences.{segment_of};
ghost use Rattle.capi.specs.Settings.{weights_of, plan_config_of};
ghost use Rattle.capi.specs.Plans.{plan_called, plan_called_of};

use crate::{recording, settings, silences};
use grid::Readings;
use planner::operation;

// 0 where the plan was made, and else document 01's number.
// Piece i has its start at pieces[3 i], its end at pieces[3 i + 1]
// and its flags (1 short, 2 long, 3 both) at pieces[3 i + 2];
// the cut after it has the end of piece i at cuts[3 i], the start of the next at cuts[3 i + 1]
// and its reason (0 silence, 1 quiet, 2 forced) at cuts[3 i + 2].
pub fn buchawzer_plan(
    sample_rate: u32,
    channels: u16,
    frame_rate: u32,
    hop: u32,
    len: u64,
    decibels: bool,
    values: &[f32],
    flags: &[u8],
    levels: &[f64],
    threshold_kind: u8,
    threshold: f32,
    min_silence: u64,
    min_sound: u64,
    pre: u64,
    tail: u64,
    min: u64,
    target: u64,
    max: u64,
    by_count: bool,
    count: u32,
    drop_gaps: bool,
    placement_kind: u8,
    ratio: f32,
    cut: f64,
    level: f64,
    pause: f64,
    pause_ref: u64,
    target_weight: f64,
    short_weight: f64,
    work_u32: &mut [u32],
    work_u64: &mut [u64],
    work_f64: &mut [f64],
    parent: &mut [u32],
    pieces: &mut [u64],
    cuts: &mut [u64],
    found: &mut u64,
) -> u32
    ensures answer { plan_called result found.new
        (output_of pieces.new cuts.new)
        (work_of work_u32.new work_u64.new work_f64.new)
        parent.new
        ≡ plan_called_of
        (plan_of
        (recording_of sample_rate channels frame_rate hop len decibels)
        (segment_of threshold_kind threshold min_silence min_sound pre tail)
        (plan_config_of min target max by_count count drop_gaps placement_kind ratio
        (weights_of cut level pause pause_ref target_weight short_weight))
        values.now flags.now levels.now
        (output_of pieces.old cuts.old)
        (work_of work_u32.old work_u64.old work_f64.old)
        parent.old)
        found.old }
    ensures fitting { Fitting values.now levels.now }
{
    let r = recording::recording_of(sample_rate, channels, frame_rate, hop, len, decibels);
    let segment = silences::segment_of(
        threshold_kind,
        threshold,
        min_silence,
        min_sound,
        pre,
        tail,
    );
    let weights = settings::weights_of(cut, level, pause, pause_ref, target_weight, short_weight);
    let plan = settings::plan_config(
        min,
        target,
        max,
        by_count,
        count,
        drop_gaps,
        placement_kind,
        ratio,
        weights,
    );
    let readings = Readings {
        values,
        flags,
        levels,
    };
    let answer = operation::plan(
        r, segment, plan, &readings, work_u32, work_u64, work_f64, parent, pieces, cuts,
    );
    match answer {
        Ok(pieces) => {
            *found = pieces as u64;
            0
        }
        Err(error) => u32::from(error),
    }
}
