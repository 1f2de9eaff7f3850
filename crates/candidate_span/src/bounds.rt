// A silence less its padding.
ghost use Rattle.std.specs.Prelude.{◌≡◌, ◌+◌, min};
ghost use Rattle.candidate_span.specs.Bounds.{low_of, high_of, bounds_of};

use crate::padding::Padding;

// Frame boundaries, both inclusive.
#[derive(Clone, Copy)]
pub struct Bounds {
    pub lo: usize,
    pub hi: usize,
}

// The boundary `by` frames after k, and n at most.
pub fn after(n: usize, k: usize, by: usize) -> usize
    ensures { result ≡ min (k + by) n }
{
    k.saturating_add(by).min(n)
}

// Where it starts, less the padding after the sound before it.
#[tactic(auto, unfolding(crate::specs::Bounds::low_of))]
fn low(p: Padding, start: usize) -> usize
    ensures { result ≡ low_of p start }
{
    if start == 0 {
        return 0;
    }
    after(p.frames, start, p.tail)
}

// Where it ends, less the padding before the sound after it.
#[tactic(auto, unfolding(crate::specs::Bounds::high_of))]
fn high(p: Padding, end: usize) -> usize
    ensures { result ≡ high_of p end }
{
    if end == p.frames {
        return p.frames;
    }
    end.saturating_sub(p.pre)
}

// The bounds of a silence.
pub fn silence_bounds(p: Padding, start: usize, end: usize) -> Bounds
    ensures { result ≡ bounds_of p start end }
{
    Bounds {
        lo: low(p, start),
        hi: high(p, end),
    }
}
