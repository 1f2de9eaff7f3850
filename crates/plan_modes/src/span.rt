// The plan of a span that work memory holds, by length or by count.
ghost use Rattle.std.specs.Prelude.{◌≡◌, length};
ghost use Rattle.candidate_span.specs.Span.{span_in};
ghost use Rattle.candidate_walk.specs.Held.{silences_held, levels_held};
ghost use Rattle.plan_pieces.specs.Output.{output_of, handed_of};
ghost use Rattle.plan_steps.specs.Held.{front_of, held_with, SpanHeld, SpanRoom};
ghost use Rattle.plan_modes.specs.Lengths.{AskedFor};
ghost use Rattle.plan_modes.specs.Plan.{plan_by};

use crate::{by_count, by_length};
use candidate_span::held::HeldSpan;
use candidates::context::Context;
use grid::FrameGrid;
use path_pieces::mode::Mode;
use plan_pieces::answer::Answer;
use plan_settings::config::PlanConfig;

// As the settings' mode says.
pub fn plan_span(
    x: Context,
    g: FrameGrid,
    settings: PlanConfig,
    span: HeldSpan,
    work_u32: &mut [u32],
    work_u64: &mut [u64],
    work_f64: &mut [f64],
    parent: &mut [u32],
    pieces: &mut [u64],
    cuts: &mut [u64],
) -> Answer
    requires span_held { SpanHeld x g span (front_of x.padding.frames work_u32.old)
        (levels_held x.padding.frames work_f64.old) }
    requires span_room { SpanRoom x.padding.frames (length work_u32.old) (length work_u64.old)
        (length work_f64.old) }
    requires asked_for { AskedFor g settings span.first span.last }
    ensures { handed_of result (output_of pieces.new cuts.new)
        ≡ plan_by g settings (span_in x.gap x.padding span
        (silences_held span.silences (front_of x.padding.frames work_u32.old)))
        (held_with x span (front_of x.padding.frames work_u32.old)
        (levels_held x.padding.frames work_f64.old))
        settings.mode (length parent.old) (output_of pieces.old cuts.old) }
{
    match settings.mode {
        Mode::ByLength => by_length::plan_by_length(
            x, g, settings, span, work_u32, work_u64, work_f64, pieces, cuts,
        ),
        Mode::ByCount(count) => by_count::plan_by_count(
            x,
            g,
            settings,
            count as usize,
            span,
            work_u32,
            work_u64,
            work_f64,
            parent,
            pieces,
            cuts,
        ),
    }
}
