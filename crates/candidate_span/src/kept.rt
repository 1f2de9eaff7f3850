// How many frames are kept.
ghost use Rattle.std.specs.Prelude.{◌≡◌};
ghost use Rattle.plan_settings.specs.declared.config.Gap.TheVariants.{Drop};
ghost use Rattle.candidate_span.specs.Gaps.{gap_width, gaps_of};
ghost use Rattle.candidate_span.specs.Kept.{kept_frames};

use crate::bounds;
use crate::padding::Padding;
use plan_settings::config::Gap;

// How many frames a silence's gap drops: none where it has no gap.
#[tactic(auto, unfolding(crate::specs::Gaps::gap_width, crate::specs::Bounds::is_inner))]
pub fn gap_width(p: Padding, start: usize, end: usize) -> usize
    ensures { result ≡ gap_width p start end }
{
    if start == 0 || end == p.frames {
        return 0;
    }
    let b = bounds::silence_bounds(p, start, end);
    b.hi.saturating_sub(b.lo)
}

// The frames from boundary `first` to boundary `last` less those of every gap.
fn less_gaps(p: Padding, first: usize, last: usize, silences: &[u32]) -> usize
    ensures { result ≡ kept_frames first (gaps_of Drop p silences.now) last }
{
    let mut kept = last.saturating_sub(first);
    let (pairs, _) = silences.as_chunks::<2>();
    for pair in pairs {
        kept = kept.saturating_sub(gap_width(p, pair[0] as usize, pair[1] as usize));
    }
    kept
}

// The kept frames of a span from boundary `first` to boundary `last` with these silences.
#[tactic(auto, unfolding(crate::specs::Gaps::gaps_of, crate::specs::Kept::kept_frames, crate::specs::Gaps::dropped))]
pub fn kept_frames(gap: Gap, p: Padding, first: usize, last: usize, silences: &[u32]) -> usize
    ensures { result ≡ kept_frames first (gaps_of gap p silences.now) last }
{
    match gap {
        Gap::Keep => last.saturating_sub(first),
        Gap::Drop => less_gaps(p, first, last, silences),
    }
}
