// From a recording and the settings of a plan to the span, and to work memory that holds what candidates are made from.
ghost use Rattle.std.specs.Prelude.{◌≡◌, length};
ghost use Rattle.candidate_finder.specs.CandidatesIn.{context_with};
ghost use Rattle.candidate_finder.specs.Prepare.{Plannable, PreparedIs};

use crate::{grid_point_marks, silences_and_levels};
use candidate_span::held::HeldSpan;
use candidate_span::padding::Padding;
use candidate_span::{ends, spacing};
use candidates::context::Context;
use grid::validate::Recording;
use grid::{FrameGrid, Readings, durations};
use plan_settings::config::PlanConfig;
use silence_list::config::SegmentConfig;

// A span that is held, with what its candidates are made with and the grid.
#[derive(Clone, Copy)]
pub struct Prepared {
    pub context: Context,
    pub grid: FrameGrid,
    pub span: HeldSpan,
}

// The settings and numbers that every candidate is made with.
fn context_with(r: Recording, settings: PlanConfig, padding: Padding) -> Context
    ensures { result ≡ context_with r settings padding }
{
    Context {
        gap: settings.gap,
        placement: settings.placement,
        weights: settings.weights,
        frame_secs: durations::frame_secs(r.frame_rate, r.hop),
        padding,
    }
}

// Writes the silences, stretches and levels of a recording, and a mark at each grid point of its span: for the
// candidate list and for Plan. An empty span has nothing to prepare.
pub fn prepare(
    r: Recording,
    segment: SegmentConfig,
    settings: PlanConfig,
    readings: &Readings,
    work_u32: &mut [u32],
    work_f64: &mut [f64],
) -> Option<Prepared>
    requires { Plannable r segment settings
        readings.now.values.now readings.now.flags.now readings.now.levels.now
        (length work_u32.old) (length work_f64.old) }
    ensures { PreparedIs r segment settings
        readings.now.values.now readings.now.flags.now readings.now.levels.now
        work_u32.new work_f64.new result }
{
    let n = readings.values.len();
    if n == 0 {
        return None;
    }
    let silences = silences_and_levels::hold(r, segment, readings, work_u32, work_f64);
    let grid = r.grid(n);
    let s = spacing::spacing_of(grid, segment.pre, segment.tail, settings.min, settings.max);
    let ends = ends::ends(settings.gap, s.padding, &work_u32[..2 * silences])?;
    let span = HeldSpan {
        silences,
        first: ends.first,
        last: ends.last,
    };
    grid_point_marks::mark_grid_points(settings.gap, grid, s, span, work_u32, work_f64);
    Some(Prepared {
        context: context_with(r, settings, s.padding),
        grid,
        span,
    })
}
