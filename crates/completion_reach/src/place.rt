// The place that a boundary stands for.
ghost use Rattle.std.specs.Prelude.{◌≡◌};
ghost use Rattle.candidate_span.specs.ListedLaws.{Listed};
ghost use Rattle.candidate_span.specs.Gaps.{gaps_of};
ghost use Rattle.plan_settings.specs.declared.config.Gap.TheVariants.{Drop};
ghost use Rattle.completion_reach.specs.Place.{is_held, place_at, held_cut};

use crate::ground::Ground;
use candidate_span::padding::Padding;
use candidate_span::{bounds, ending, listed};
use plan_settings::config::Gap;

// A piece ends at boundary `left`, the next starts at `right`.
#[derive(Clone, Copy)]
pub struct HeldCut {
    pub left: usize,
    pub right: usize,
}

// Whether the silence from frame `start` to before frame `end` has a gap that holds boundary k, its edges included.
fn is_held(p: Padding, start: usize, end: usize, k: usize) -> bool
    ensures { result ≡ is_held p start end k }
{
    let b = bounds::silence_bounds(p, start, end);
    start != 0 && end != p.frames && b.lo < b.hi && b.lo <= k && k <= b.hi
}

// With gaps dropped: the gap that holds boundary k, or the cut at k.
fn dropped_place(p: Padding, silences: &[u32], k: usize) -> HeldCut
    requires { Listed p.frames silences.now }
    ensures { result ≡ held_cut (place_at (gaps_of Drop p silences.now) k) }
{
    let i = ending::first_ending(silences, k);
    if silences.len() / 2 <= i {
        return HeldCut { left: k, right: k };
    }
    let start = listed::start_at(silences, i);
    let end = listed::end_at(silences, i);
    if is_held(p, start, end, k) {
        let b = bounds::silence_bounds(p, start, end);
        return HeldCut {
            left: b.lo,
            right: b.hi,
        };
    }
    HeldCut { left: k, right: k }
}

// The gap that holds boundary k, its edges included, or the cut at k.
pub fn place_at(x: Ground, silences: &[u32], k: usize) -> HeldCut
    requires { Listed x.padding.frames silences.now }
    ensures { result ≡ held_cut (place_at (gaps_of x.gap x.padding silences.now) k) }
{
    match x.gap {
        Gap::Keep => HeldCut { left: k, right: k },
        Gap::Drop => dropped_place(x.padding, silences, k),
    }
}
