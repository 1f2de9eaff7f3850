// The operation Plan with an output of its own, and its answer as lines.
ghost use Rattle.std.specs.Prelude.{◌≡◌, ◌≤◌, length};
ghost use Rattle.base_terms.specs.Lists.{onto};
ghost use Rattle.cutplan.specs.Lines.{longest_listing, lines_of_plan, refused_of_plan, refusal_said};

use crate::answer::Answered;
use crate::{answer, memory};
use grid::Readings;
use grid::validate::Recording;
use plan_settings::config::PlanConfig;
use silence_list::config::SegmentConfig;

// Three numbers for a piece, or a cut, at each frame.
const NUMBERS: usize = 1_533;

// The listing of a plan that is made in lists of its own. Three lists, not `Readings`: of the arrays that the caller
// filled a literal finds no ghost field, and of slices that are lent it does.
pub fn plan_lists(
    r: Recording,
    segment: SegmentConfig,
    settings: PlanConfig,
    values: &[f32],
    flags: &[u8],
    levels: &[f64],
    out: &mut [u8],
) -> Answered
    requires { longest_listing ≤ length out.old }
    ensures size_value { result.size
        ≡ length (lines_of_plan r segment settings values.now flags.now levels.now) }
    ensures refused_value { result.refused
        ≡ refusal_said (refused_of_plan r segment settings values.now flags.now levels.now) }
    ensures out_after { out.new
        ≡ onto (lines_of_plan r segment settings values.now flags.now levels.now)
        out.old }
{
    let mut pieces = [0u64; NUMBERS];
    let mut cuts = [0u64; NUMBERS];
    let readings = Readings {
        values,
        flags,
        levels,
    };
    let answer = memory::plan_within(r, segment, settings, &readings, &mut pieces, &mut cuts);
    answer::write_answer(answer, &pieces, &cuts, out)
}
