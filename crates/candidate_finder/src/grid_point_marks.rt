// The marks of grid points, written to work memory.
ghost use Rattle.std.specs.Prelude.{◌≡◌};
ghost use Rattle.candidate_finder.specs.GridPointMarks.{Markable, marked_of};

use base_code::layout::Layout;
use candidate_points::{blocked, points};
use candidate_span::held::HeldSpan;
use candidate_span::spacing::Spacing;
use grid::FrameGrid;
use plan_settings::config::Gap;

// Marks the grid points of a span, where silences and levels are held.
pub fn mark_grid_points(
    gap: Gap,
    g: FrameGrid,
    s: Spacing,
    span: HeldSpan,
    work_u32: &mut [u32],
    work_f64: &[f64],
)
    requires { Markable g s span work_u32.old work_f64.now }
    ensures { work_u32.new ≡
        marked_of gap g s span work_u32.old work_f64.now }
{
    let places = Layout { frames: g.frames };
    let side = places.side();
    let base = places.marks_at();
    blocked::mark_blocked(gap, g, s, span.silences, base, work_u32);
    points::mark_points(
        s.block,
        span.first,
        span.last,
        &work_f64[..side],
        &mut work_u32[base..base + side],
    );
}
