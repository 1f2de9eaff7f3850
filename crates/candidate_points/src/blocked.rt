// Which boundaries silences block.
ghost use Rattle.std.specs.Prelude.{◌≡◌, ◌*◌, take};
ghost use Rattle.grid.specs.Boundary.{Bounded};
ghost use Rattle.candidate_points.specs.Blocked.{gets_grid, shut_by, blocked_of};
ghost use Rattle.candidate_points.specs.Placed.{placed};
ghost use Rattle.candidate_points.specs.BlockedWalk.{Silent, FlagRoom, Unmarked};

use crate::fill;
use base_code::layout::Layout;
use candidate_span::bounds;
use candidate_span::spacing::Spacing;
use grid::FrameGrid;
use plan_settings::config::Gap;

// A long silence gets grid candidates when silence is kept and no plan within the maximum could step over it; otherwise
// its only candidate is its own.
#[tactic(auto, unfolding(crate::specs::Blocked::gets_grid))]
fn gets_grid(gap: Gap, g: FrameGrid, limit: u64, start: usize, end: usize) -> bool
    requires { Bounded g }
    ensures { result ≡ gets_grid gap g limit start end }
{
    match gap {
        Gap::Keep => limit < g.position(end).saturating_sub(g.position(start)),
        Gap::Drop => false,
    }
}

// The flags of one silence. Grid candidates stay out of the padding, so a piece of nothing but edge silence or padding
// never comes from them.
fn mark_silence(gap: Gap, g: FrameGrid, s: Spacing, start: usize, end: usize, flags: &mut [u32])
    requires { Silent g start end flags.old }
    ensures { flags.new ≡ shut_by gap g s start end flags.old }
{
    let b = bounds::silence_bounds(s.padding, start, end);
    fill::fill_range(flags, start, end + 1, 1);
    if b.lo <= b.hi && gets_grid(gap, g, s.edge_limit, start, end) {
        fill::fill_range(flags, b.lo, b.hi + 1, 0);
    }
}

// The flags of every silence, over flags that are all 0.
fn mark_silences(gap: Gap, g: FrameGrid, s: Spacing, silences: &[u32], flags: &mut [u32])
    requires { Unmarked g s silences.now flags.old }
    ensures { flags.new ≡ blocked_of gap g s silences.now }
{
    let (pairs, _) = silences.as_chunks::<2>();
    for pair in pairs {
        mark_silence(gap, g, s, pair[0] as usize, pair[1] as usize, flags);
    }
}

// Writes for each boundary whether it is blocked: 1, or else 0. The silences stand at the front of the list, the flags
// at `base`.
pub fn mark_blocked(
    gap: Gap,
    g: FrameGrid,
    s: Spacing,
    silences: usize,
    base: usize,
    work: &mut [u32],
)
    requires { FlagRoom g s silences base work.old }
    ensures { work.new ≡
        placed base (blocked_of gap g s (take (2 * silences) work.old)) work.old }
{
    let (list, behind) = work.split_at_mut(base);
    let places = Layout { frames: g.frames };
    let flags = &mut behind[..places.side()];
    flags.fill(0);
    mark_silences(gap, g, s, &list[..2 * silences], flags);
}
