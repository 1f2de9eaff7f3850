// The candidates' ends in samples, as the path search takes them, from the numbers that work memory holds of each.
ghost use Rattle.std.specs.Prelude.{◌≡◌, ◌+◌, ◌*◌, length};
ghost use Rattle.base_terms.specs.Lists.{tabulate};
ghost use Rattle.grid.specs.Boundary.{Bounded};
ghost use Rattle.plan_lists.specs.Positions.{end_in, positions_in, EntriesRoom, PositionsRoom};

use base_code::layout::Layout;
use grid::boundary::FrameGrid;

// The position of each candidate's number `which`: 0 for the left end, 1 for the right.
fn ends(g: FrameGrid, entries: &[u32], which: usize, out: &mut [u64])
    requires bounded { Bounded g }
    requires entries_room { EntriesRoom (length out.old) which entries.now }
    ensures { out.new ≡ tabulate (end_in g entries.now which) (length out.old) }
{
    for (i, end) in out.iter_mut().enumerate() {
        *end = g.position(entries[3 * i + which] as usize);
    }
}

// The left positions of so many candidates to the front of the u64 list, and the right ones to their place behind.
pub fn positions(g: FrameGrid, candidates: usize, work_u32: &[u32], work_u64: &mut [u64])
    requires bounded { Bounded g }
    requires positions_room { PositionsRoom g.frames candidates work_u32.now work_u64.old }
    ensures { work_u64.new ≡ positions_in g candidates work_u32.now work_u64.old }
{
    let places = Layout { frames: g.frames };
    let first = places.entries_at();
    let entries = &work_u32[first..first + 3 * candidates];
    ends(g, entries, 0, &mut work_u64[..candidates]);
    let rights = places.rights_at();
    ends(g, entries, 1, &mut work_u64[rights..rights + candidates]);
}
