// The operation itself.
ghost use Rattle.std.specs.Prelude.{◌≡◌, length};
ghost use Rattle.base_terms.specs.Work.{work_of};
ghost use Rattle.plan_pieces.specs.Output.{output_of, handed_of};
ghost use Rattle.plan_tests.specs.Fitting.{Fitting};
ghost use Rattle.plan_tests.specs.PlanReady.{PlanReady};
ghost use Rattle.planner.specs.Operation.{planned_of, end_of, plan_of};

use base_code::work;
use candidate_finder::prepare;
use grid::Readings;
use grid::validate::Recording;
use plan_modes::span;
use plan_pieces::answer::Answer;
use plan_settings::config::PlanConfig;
use plan_tests::refusal;
use silence_list::config::SegmentConfig;

// The plan of a recording that passes the tests up to 13. An empty span has the empty plan.
fn plan_recording(
    r: Recording,
    segment: SegmentConfig,
    settings: PlanConfig,
    readings: &Readings,
    work_u32: &mut [u32],
    work_u64: &mut [u64],
    work_f64: &mut [f64],
    parent: &mut [u32],
    pieces: &mut [u64],
    cuts: &mut [u64],
) -> Answer
    requires { PlanReady r segment settings
        readings.now.values.now readings.now.flags.now readings.now.levels.now
        (length work_u32.old) (length work_u64.old) (length work_f64.old) }
    ensures { handed_of result (output_of pieces.new cuts.new)
        ≡ planned_of r segment settings
        readings.now.values.now readings.now.flags.now readings.now.levels.now
        (length parent.old) (output_of pieces.old cuts.old) }
{
    let prepared = prepare::prepare(r, segment, settings, readings, work_u32, work_f64);
    match prepared {
        None => Ok(0),
        Some(p) => span::plan_span(
            p.context, p.grid, settings, p.span, work_u32, work_u64, work_f64, parent, pieces, cuts,
        ),
    }
}

// Document 01's operation Plan: start, end and flags of piece i stand at pieces[3 i ..], previous end, next start and
// reason of cut i at cuts[3 i ..].
pub fn plan(
    r: Recording,
    segment: SegmentConfig,
    settings: PlanConfig,
    readings: &Readings,
    work_u32: &mut [u32],
    work_u64: &mut [u64],
    work_f64: &mut [f64],
    parent: &mut [u32],
    pieces: &mut [u64],
    cuts: &mut [u64],
) -> Answer
    ensures answer { end_of result (output_of pieces.new cuts.new)
        (work_of work_u32.new work_u64.new work_f64.new) parent.new
        ≡ plan_of r segment settings
        readings.now.values.now readings.now.flags.now readings.now.levels.now
        (output_of pieces.old cuts.old)
        (work_of work_u32.old work_u64.old work_f64.old) parent.old }
    ensures fitting { Fitting readings.now.values.now readings.now.levels.now }
{
    let n32 = work_u32.len();
    let n64 = work_u64.len();
    let nf = work_f64.len();
    refusal::first_refusal(r, segment, settings, readings, n32, n64, nf)?;
    let answer = plan_recording(
        r, segment, settings, readings, work_u32, work_u64, work_f64, parent, pieces, cuts,
    );
    work::clear_work(work_u32, work_u64, work_f64);
    parent.fill(0);
    answer
}
