// The cut in a silence that has sound on both sides.
ghost use Rattle.std.specs.Prelude.{◌≡◌, ◌≤◌, ◌<◌, length};
ghost use Rattle.candidate_cuts.specs.Place.{WithLevels};
ghost use Rattle.candidate_cuts.specs.Cut.{Inner, split_point, least_level, point_cut, silence_cut};

use crate::place;
use base_code::floats;
use candidate_span::bounds;
use candidate_span::padding::Padding;
use plan_settings::config::{Gap, Placement};

// The earlier piece ends at frame boundary `left`, the later starts at `right`; `level` is what the cut is charged for.
#[derive(Clone, Copy)]
pub struct SilenceCut {
    pub left: usize,
    pub right: usize,
    pub level: f64,
}

// The middle of the overlap of two paddings, kept within the silence between the sounds.
// `next_start` is the padded start of the later sound and `prev_end` the padded end of the earlier one.
#[tactic(auto, unfolding(crate::specs::Cut::split_point))]
fn split_point(next_start: usize, prev_end: usize, start: usize, end: usize) -> usize
    requires next_start_le_prev_end { next_start ≤ prev_end }
    requires start_le_end { start ≤ end }
    ensures { result ≡ split_point next_start prev_end start end }
{
    let middle = next_start + (prev_end - next_start) / 2;
    middle.clamp(start, end)
}

// The least level of the boundaries from start to end, both inclusive.
fn least_level(levels: &[f64], start: usize, end: usize) -> f64
    requires { WithLevels levels.now start end }
    ensures { result ≡ least_level levels.now start end }
{
    let silence = &levels[start..end + 1];
    silence
        .iter()
        .fold(f64::INFINITY, |least, level| floats::min(least, *level))
}

// A cut at one boundary, which drops nothing.
fn point_cut(levels: &[f64], k: usize) -> SilenceCut
    requires { k < length levels.now }
    ensures { result ≡ point_cut levels.now k }
{
    SilenceCut {
        left: k,
        right: k,
        level: levels[k],
    }
}

// The candidate of the silence from frame `start` to before frame `end`. `levels` has one level for each frame
// boundary.
pub fn silence_cut(
    gap: Gap,
    placement: Placement,
    p: Padding,
    levels: &[f64],
    start: usize,
    end: usize,
) -> SilenceCut
    requires { Inner placement p.frames levels.now start end }
    ensures { result ≡ silence_cut gap placement p levels.now start end }
{
    let b = bounds::silence_bounds(p, start, end);
    if b.hi < b.lo {
        return point_cut(levels, split_point(b.hi, b.lo, start, end));
    }
    match gap {
        Gap::Keep => point_cut(levels, place::place(placement, levels, b.lo, b.hi)),
        Gap::Drop => SilenceCut {
            left: b.lo,
            right: b.hi,
            level: least_level(levels, start, end),
        },
    }
}
