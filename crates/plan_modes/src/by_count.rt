// The plan by count of a span that work memory holds.
ghost use Rattle.std.specs.Prelude.{◌≡◌, suc, ◌≤◌, ◌<◌, ◌&&◌, eqb, length};
ghost use Rattle.candidate_span.specs.Span.{span_in};
ghost use Rattle.candidate_walk.specs.Held.{silences_held, levels_held};
ghost use Rattle.plan_pieces.specs.Output.{output_of, handed_of};
ghost use Rattle.plan_steps.specs.Held.{front_of, held_with, SpanHeld, SpanRoom};
ghost use Rattle.plan_modes.specs.Lengths.{AskedByCount};
ghost use Rattle.plan_modes.specs.Plan.{planned_after, plan_by_count};

use candidate_span::held::HeldSpan;
use candidate_walk::collect;
use candidates::context::Context;
use grid::FrameGrid;
use path_rules::solved::Solved;
use plan_lengths::lengths;
use plan_lists::parents;
use plan_pieces::answer::{Answer, Error};
use plan_settings::config::PlanConfig;
use plan_steps::{complete, hand, search};

// Whether a path has as many pieces as are asked for, and none over its limit.
fn is_enough(solved: Solved, count: usize) -> bool
    requires { count < 4294967296 }
    ensures { result ≡ (eqb solved.len (suc count) && eqb solved.score.over 0) }
{
    solved.len == count + 1 && solved.score.over == 0
}

// Seeks the reach, and plans over the candidates that are completed under it.
fn plan_after(
    x: Context,
    g: FrameGrid,
    settings: PlanConfig,
    count: usize,
    span: HeldSpan,
    work_u32: &mut [u32],
    work_u64: &mut [u64],
    work_f64: &mut [f64],
    parent: &mut [u32],
    pieces: &mut [u64],
    cuts: &mut [u64],
) -> Answer
    requires span_held { SpanHeld x g span (front_of x.padding.frames work_u32.old)
        (levels_held x.padding.frames work_f64.old) }
    requires span_room { SpanRoom x.padding.frames (length work_u32.old) (length work_u64.old)
        (length work_f64.old) }
    requires asked_by_count { AskedByCount g settings span.first span.last count }
    ensures { handed_of result (output_of pieces.new cuts.new)
        ≡ planned_after g settings (span_in x.gap x.padding span
        (silences_held span.silences (front_of x.padding.frames work_u32.old)))
        (held_with x span (front_of x.padding.frames work_u32.old)
        (levels_held x.padding.frames work_f64.old))
        count (length parent.old) (output_of pieces.old cuts.old) }
{
    let max = lengths::maximum(g, settings);
    let completed = complete::complete_by_count(x, g, max, count, span, work_u32, work_f64);
    let k = completed.candidates;
    if !parents::has_parents(count, k, parent.len()) {
        return Err(Error::ShortParent);
    }
    let l = lengths::lengths_by_count(g, settings, span.first, span.last, count, completed.limit);
    let solved = search::search_by_count(g, k, l, count, work_u32, work_u64, work_f64, parent);
    let len = solved.len;
    hand::hand_out_held(g, k, len, l.min, max, work_u32, work_u64, pieces, cuts)
}

// The best path over the first candidates, if it suffices under the maximum; else over those that are completed under
// the reach.
pub fn plan_by_count(
    x: Context,
    g: FrameGrid,
    settings: PlanConfig,
    count: usize,
    span: HeldSpan,
    work_u32: &mut [u32],
    work_u64: &mut [u64],
    work_f64: &mut [f64],
    parent: &mut [u32],
    pieces: &mut [u64],
    cuts: &mut [u64],
) -> Answer
    requires span_held { SpanHeld x g span (front_of x.padding.frames work_u32.old)
        (levels_held x.padding.frames work_f64.old) }
    requires span_room { SpanRoom x.padding.frames (length work_u32.old) (length work_u64.old)
        (length work_f64.old) }
    requires asked_by_count { AskedByCount g settings span.first span.last count }
    ensures { handed_of result (output_of pieces.new cuts.new)
        ≡ plan_by_count g settings (span_in x.gap x.padding span
        (silences_held span.silences (front_of x.padding.frames work_u32.old)))
        (held_with x span (front_of x.padding.frames work_u32.old)
        (levels_held x.padding.frames work_f64.old))
        count (length parent.old) (output_of pieces.old cuts.old) }
{
    let max = lengths::maximum(g, settings);
    let k = collect::collect(x, span, work_u32, work_f64);
    if !parents::has_parents(count, k, parent.len()) {
        return Err(Error::ShortParent);
    }
    let l = lengths::lengths_by_count(g, settings, span.first, span.last, count, max);
    let solved = search::search_by_count(g, k, l, count, work_u32, work_u64, work_f64, parent);
    if is_enough(solved, count) {
        return hand::hand_out_held(
            g, k, solved.len, l.min, max, work_u32, work_u64, pieces, cuts,
        );
    }
    plan_after(
        x, g, settings, count, span, work_u32, work_u64, work_f64, parent, pieces, cuts,
    )
}
