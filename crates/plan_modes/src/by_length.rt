// The plan by length of a span that work memory holds.
ghost use Rattle.std.specs.Prelude.{◌≡◌, length};
ghost use Rattle.candidate_walk.specs.Held.{levels_held};
ghost use Rattle.plan_pieces.specs.Output.{output_of, handed_of};
ghost use Rattle.plan_steps.specs.Held.{front_of, held_with, SpanHeld, SpanRoom};
ghost use Rattle.plan_modes.specs.Lengths.{AskedByLength};
ghost use Rattle.plan_modes.specs.Plan.{plan_by_length};

use candidate_span::held::HeldSpan;
use candidates::context::Context;
use grid::FrameGrid;
use plan_lengths::lengths;
use plan_pieces::answer::Answer;
use plan_settings::config::PlanConfig;
use plan_steps::{complete, hand, search};

// The best path over the completed candidates, under the maximum.
pub fn plan_by_length(
    x: Context,
    g: FrameGrid,
    settings: PlanConfig,
    span: HeldSpan,
    work_u32: &mut [u32],
    work_u64: &mut [u64],
    work_f64: &mut [f64],
    pieces: &mut [u64],
    cuts: &mut [u64],
) -> Answer
    requires span_held { SpanHeld x g span (front_of x.padding.frames work_u32.old)
        (levels_held x.padding.frames work_f64.old) }
    requires span_room { SpanRoom x.padding.frames (length work_u32.old) (length work_u64.old)
        (length work_f64.old) }
    requires asked_by_length { AskedByLength g settings }
    ensures { handed_of result (output_of pieces.new cuts.new)
        ≡ plan_by_length g settings
        (held_with x span (front_of x.padding.frames work_u32.old)
        (levels_held x.padding.frames work_f64.old))
        (output_of pieces.old cuts.old) }
{
    let max = lengths::maximum(g, settings);
    let k = complete::complete_by_length(x, g, max, span, work_u32, work_f64);
    let l = lengths::lengths_by_length(g, settings);
    let solved = search::search_by_length(g, k, l, work_u32, work_u64, work_f64);
    hand::hand_out_held(
        g, k, solved.len, l.min, max, work_u32, work_u64, pieces, cuts,
    )
}
