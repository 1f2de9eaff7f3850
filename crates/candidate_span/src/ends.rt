// The two ends of the span.
ghost use Rattle.std.specs.Prelude.{◌≡◌, ◌<◌, IsTrue};
ghost use Rattle.plan_settings.specs.declared.config.Gap.TheVariants.{Drop};
ghost use Rattle.candidate_span.specs.Span.{is_leading, is_trailing, all_silent, first_of, last_of, ends_of};
ghost use Rattle.candidate_span.specs.Listed.{silence_count};

use crate::padding::Padding;
use crate::{bounds, listed};
use plan_settings::config::Gap;

// First and last frame boundary of the plan.
#[derive(Clone, Copy)]
pub struct SpanEnds {
    pub first: usize,
    pub last: usize,
}

// Whether the recording starts with silence.
#[tactic(auto, unfolding(crate::specs::Span::is_leading))]
fn is_leading(silences: &[u32]) -> bool
    ensures value { result ≡ is_leading silences.now }
    ensures some { IsTrue result → 0 < silence_count silences.now }
{
    silences.len() / 2 > 0 && listed::start_at(silences, 0) == 0
}

// Whether a recording of n frames ends with silence.
#[tactic(auto, unfolding(crate::specs::Span::is_trailing))]
fn is_trailing(n: usize, silences: &[u32]) -> bool
    ensures value { result ≡ is_trailing n silences.now }
    ensures some { IsTrue result → 0 < silence_count silences.now }
{
    let count = silences.len() / 2;
    count > 0 && listed::end_at(silences, count - 1) == n
}

// Whether a recording of n frames is silent all through.
#[tactic(auto, unfolding(crate::specs::Span::all_silent))]
fn all_silent(n: usize, silences: &[u32]) -> bool
    ensures { result ≡ all_silent n silences.now }
{
    is_leading(silences) && listed::end_at(silences, 0) == n
}

// With gaps dropped: where the padding of the first sound starts.
#[tactic(auto, unfolding(crate::specs::Span::first_of))]
fn first(p: Padding, silences: &[u32]) -> usize
    ensures { result ≡ first_of Drop p silences.now }
{
    if is_leading(silences) {
        listed::end_at(silences, 0).saturating_sub(p.pre)
    } else {
        0
    }
}

// With gaps dropped: where the padding of the last sound ends.
#[tactic(auto, unfolding(crate::specs::Span::last_of))]
fn last(p: Padding, silences: &[u32]) -> usize
    ensures { result ≡ last_of Drop p silences.now }
{
    if is_trailing(p.frames, silences) {
        let start = listed::start_at(silences, silences.len() / 2 - 1);
        bounds::after(p.frames, start, p.tail)
    } else {
        p.frames
    }
}

// The ends of the span of a recording with these silences, or none where there is nothing to keep. Dropping gaps moves
// its ends inward to the padding of the first and last sound.
#[tactic(auto, unfolding(crate::specs::Span::ends_of, crate::specs::Span::empty_span, crate::specs::Span::first_of, crate::specs::Span::last_of))]
pub fn ends(gap: Gap, p: Padding, silences: &[u32]) -> Option<SpanEnds>
    ensures { result ≡ ends_of gap p silences.now }
{
    if p.frames == 0 {
        return None;
    }
    match gap {
        Gap::Keep => Some(SpanEnds {
            first: 0,
            last: p.frames,
        }),
        Gap::Drop => {
            if all_silent(p.frames, silences) {
                return None;
            }
            Some(SpanEnds {
                first: first(p, silences),
                last: last(p, silences),
            })
        }
    }
}
