// From a recording and the settings of a plan to its candidates, written to work memory.
ghost use Rattle.std.specs.Prelude.{length};
ghost use Rattle.candidate_finder.specs.CandidatesIn.{candidates_in};
ghost use Rattle.candidate_finder.specs.Prepare.{Plannable};
ghost use Rattle.candidate_finder.specs.FinderLaws.{Stands};

use crate::prepare;
use candidate_walk::collect;
use grid::Readings;
use grid::validate::Recording;
use plan_settings::config::PlanConfig;
use silence_list::config::SegmentConfig;

// The candidates of a recording under its settings. Returns how many there are.
pub fn find_candidates(
    r: Recording,
    segment: SegmentConfig,
    settings: PlanConfig,
    readings: &Readings,
    work_u32: &mut [u32],
    work_f64: &mut [f64],
) -> usize
    requires { Plannable r segment settings
        readings.now.values.now readings.now.flags.now readings.now.levels.now
        (length work_u32.old) (length work_f64.old) }
    ensures { Stands (length readings.now.values.now) result
        (candidates_in r segment settings
        readings.now.values.now readings.now.flags.now readings.now.levels.now)
        work_u32.new work_f64.new }
{
    let prepared = prepare::prepare(r, segment, settings, readings, work_u32, work_f64);
    match prepared {
        None => 0,
        Some(p) => collect::collect(p.context, p.span, work_u32, work_f64),
    }
}
