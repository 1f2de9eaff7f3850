// How far apart candidates stand, and how much silence is kept beside sound. All of it follows from the settings and
// the grid.
ghost use Rattle.std.specs.Prelude.{◌≡◌};
ghost use Rattle.candidate_span.specs.Spacing.{block_time, block_of, padding_cap, edge_limit_of, spacing_of};
ghost use Rattle.candidate_span.specs.SpacingLaws.{Spaced};

use crate::padding::Padding;
use grid::{FrameGrid, durations};

// All of it, in frames but for the edge limit.
#[derive(Clone, Copy)]
pub struct Spacing {
    // Block size in frames, at least one.
    pub block: usize,
    // With silence kept, a silence longer than this many samples also gets grid candidates outside its padding.
    pub edge_limit: u64,
    // How much silence is kept beside sound.
    pub padding: Padding,
}

// The block's duration. It follows max - min, but not below max / 8: a tight soft minimum must not shrink the grid to
// every frame.
fn block_time(min: u64, max: u64) -> u64
    ensures { result ≡ block_time min max }
{
    let apart = max.saturating_sub(min) / 2;
    apart.max(max / 8).min(durations::NANOS_PER_SEC)
}

// The block in frames, at least one.
#[tactic(auto, unfolding(crate::specs::Spacing::block_of))]
fn block_of(g: FrameGrid, min: u64, max: u64) -> u64
    requires { Spaced g max }
    ensures { result ≡ block_of g min max }
{
    let time = block_time(min, max);
    durations::frames_floor(g.frame_rate, g.hop, time).max(1)
}

// A piece must hold the padding plus a block to reach the next grid candidate.
fn padding_cap(g: FrameGrid, block: u64, max: u64) -> u64
    requires { Spaced g max }
    ensures { result ≡ padding_cap g block max }
{
    let most = durations::frames_floor(g.frame_rate, g.hop, max);
    most.saturating_sub(block).saturating_sub(block)
}

// The nearest grid candidates outside a silence may be a block or two from it, so a silence longer than the maximum
// less two blocks gets grid candidates of its own.
#[tactic(auto, unfolding(crate::specs::Spacing::edge_limit_of))]
fn edge_limit(g: FrameGrid, block: u64, max: u64) -> u64
    requires { Spaced g max }
    ensures { result ≡ edge_limit_of g block max }
{
    let most = durations::samples_floor(g.sample_rate, max);
    let samples = g.position(block.min(g.frames as u64) as usize);
    most.saturating_sub(samples).saturating_sub(samples)
}

// The spacing of a plan with these settings, in nanoseconds: padding before and after sound, minimum and maximum.
#[tactic(auto, unfolding(crate::specs::Spacing::spacing_of, crate::specs::Spacing::padding_of))]
pub fn spacing_of(g: FrameGrid, pre: u64, tail: u64, min: u64, max: u64) -> Spacing
    requires max_spaced { Spaced g max }
    requires pre_spaced { Spaced g pre }
    requires tail_spaced { Spaced g tail }
    ensures { result ≡ spacing_of g pre tail min max }
{
    let block = block_of(g, min, max);
    let cap = padding_cap(g, block, max);
    let before = durations::frames_in(g.frame_rate, g.hop, pre).min(cap);
    let after = durations::frames_in(g.frame_rate, g.hop, tail).min(cap);
    Spacing {
        block: block as usize,
        edge_limit: edge_limit(g, block, max),
        padding: Padding {
            frames: g.frames,
            pre: before as usize,
            tail: after as usize,
        },
    }
}
