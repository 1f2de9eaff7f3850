// The operation Plan with work memory of its own.
ghost use Rattle.std.specs.Prelude.{◌≡◌};
ghost use Rattle.plan_pieces.specs.Output.{output_of, handed_of};
ghost use Rattle.cutplan.specs.Memory.{handed_within};

use grid::Readings;
use grid::validate::Recording;
use plan_pieces::answer::Answer;
use plan_settings::config::PlanConfig;
use planner::operation;
use silence_list::config::SegmentConfig;

// 16 entries for each of 511 frames, and 16 more.
const WORK: usize = 8_192;

// As document 01 has it.
const PARENTS: usize = 16_384;

// What Plan answers with these lists.
pub fn plan_within(
    r: Recording,
    segment: SegmentConfig,
    settings: PlanConfig,
    readings: &Readings,
    pieces: &mut [u64],
    cuts: &mut [u64],
) -> Answer
    ensures { handed_of result (output_of pieces.new cuts.new)
        ≡ handed_within r segment settings
        readings.now.values.now readings.now.flags.now readings.now.levels.now
        (output_of pieces.old cuts.old) }
{
    let mut work_u32 = [0u32; WORK];
    let mut work_u64 = [0u64; WORK];
    let mut work_f64 = [0f64; WORK];
    let mut parent = [0u32; PARENTS];
    operation::plan(
        r,
        segment,
        settings,
        readings,
        &mut work_u32,
        &mut work_u64,
        &mut work_f64,
        &mut parent,
        pieces,
        cuts,
    )
}
