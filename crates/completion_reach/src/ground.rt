// What a division stands on, beside the list of silences: the frame grid, whether gaps are dropped, how much silence is
// kept beside sound, and the span.
use candidate_span::held::HeldSpan;
use candidate_span::padding::Padding;
use grid::FrameGrid;
use plan_settings::config::Gap;

// All of it, by value.
#[derive(Clone, Copy)]
pub struct Ground {
    pub grid: FrameGrid,
    pub gap: Gap,
    pub padding: Padding,
    pub span: HeldSpan,
}
