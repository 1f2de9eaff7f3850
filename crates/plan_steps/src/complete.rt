// The candidates of a span, completed by length or by count: marks are added, and the candidates collected again.
ghost use Rattle.std.specs.Prelude.{◌≡◌, ◌*◌, ◌≤◌, ◌<◌, length, take};
ghost use Rattle.base_terms.specs.Layout.{marks_at};
ghost use Rattle.candidate_span.specs.Span.{span_in};
ghost use Rattle.candidate_walk.specs.Held.{levels_held};
ghost use Rattle.candidate_finder.specs.FinderLaws.{Stands};
ghost use Rattle.grid.specs.Limits.{max_frames};
ghost use Rattle.completion_reach.specs.Cuts.{marking};
ghost use Rattle.completion.specs.CutsLaws.{MarkRoom};
ghost use Rattle.plan_steps.specs.Held.{front_of, SpanHeld, CollectRoom};
ghost use Rattle.plan_steps.specs.Complete.{bridged_held, CompletedIs};
ghost use Rattle.plan_steps.specs.Steps.{cuts_added};

use base_code::layout::Layout;
use candidate_span::held::HeldSpan;
use candidate_span::kept;
use candidate_walk::collect;
use candidates::context::Context;
use completion::{bridge, far, shares};
use completion_reach::ground::Ground;
use completion_reach::reach;
use grid::FrameGrid;

// By length: points between neighbours that are further apart than `max`. Returns how many candidates there are then.
pub fn complete_by_length(
    x: Context,
    g: FrameGrid,
    max: u64,
    span: HeldSpan,
    work_u32: &mut [u32],
    work_f64: &mut [f64],
) -> usize
    requires span_held { SpanHeld x g span (front_of x.padding.frames work_u32.old)
        (levels_held x.padding.frames work_f64.old) }
    requires collect_room { CollectRoom x.padding.frames (length work_u32.old) (length work_f64.old) }
    ensures { Stands x.padding.frames result
        (bridged_held x g max span work_u32.old work_f64.old)
        work_u32.new work_f64.new }
{
    let n = x.padding.frames;
    let places = Layout { frames: n };
    let marks = places.marks_at();
    let entries = places.entries_at();
    let found = collect::collect(x, span, work_u32, work_f64);
    bridge::complete_max(g, marks, entries, found - 1, max, work_u32);
    collect::collect(x, span, work_u32, work_f64)
}

// Marks the cuts of the division that goes as far as it can under the limit, and of equal shares.
fn mark_cuts(x: Ground, count: usize, limit: u64, work_u32: &mut [u32])
    requires mark_room { MarkRoom x (marks_at x.grid.frames) work_u32.old }
    requires last_le_max_frames { x.span.last ≤ max_frames }
    ensures { work_u32.new
        ≡ marking (marks_at x.grid.frames)
        (cuts_added x.grid
        (span_in x.gap x.padding x.span (take (2 * x.span.silences) work_u32.old)) count limit)
        work_u32.old }
{
    let places = Layout {
        frames: x.grid.frames,
    };
    let base = places.marks_at();
    let silences = &work_u32[..2 * x.span.silences];
    let frames = kept::kept_frames(x.gap, x.padding, x.span.first, x.span.last, silences);
    let pieces = count.min(frames);
    far::mark_far(x, base, pieces, limit, work_u32);
    shares::mark_shares(x, base, frames, pieces, work_u32);
}

// Under which limit the candidates are completed by count, and how many there are then.
#[derive(Clone, Copy)]
pub struct Completed {
    pub limit: u64,
    pub candidates: usize,
}

// By count: the reach is sought, and under it the cuts for as many pieces as are asked for.
pub fn complete_by_count(
    x: Context,
    g: FrameGrid,
    max: u64,
    count: usize,
    span: HeldSpan,
    work_u32: &mut [u32],
    work_f64: &mut [f64],
) -> Completed
    requires span_held { SpanHeld x g span (front_of x.padding.frames work_u32.old)
        (levels_held x.padding.frames work_f64.old) }
    requires collect_room { CollectRoom x.padding.frames (length work_u32.old) (length work_f64.old) }
    requires count_nonzero { 0 < count }
    ensures { CompletedIs x g max count span work_u32.old work_f64.old
        work_u32.new work_f64.new result }
{
    let ground = Ground {
        grid: g,
        gap: x.gap,
        padding: x.padding,
        span,
    };
    let limit = reach::reach(ground, &work_u32[..2 * span.silences], count, max);
    mark_cuts(ground, count, limit, work_u32);
    let candidates = collect::collect(x, span, work_u32, work_f64);
    Completed { limit, candidates }
}
