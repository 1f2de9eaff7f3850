// The best path over the candidates that work memory holds: their positions are written, and then it is sought.
ghost use Rattle.std.specs.Prelude.{◌*◌, ◌-◌, ◌≤◌, ◌<◌, min, length};
ghost use Rattle.plan_steps.specs.Search.{AskedOver, SearchedByLength, SearchedByCount};

use grid::FrameGrid;
use path_pieces::lengths::Lengths;
use path_rules::solved::Solved;
use plan_lists::positions;
use plan_path::search;

// By length.
// Two functions and not one over both modes: each asks a search of its own, which promises another best path and score.
pub fn search_by_length(
    g: FrameGrid,
    k: usize,
    lengths: Lengths,
    work_u32: &mut [u32],
    work_u64: &mut [u64],
    work_f64: &mut [f64],
) -> Solved
    requires { AskedOver g k lengths work_u32.old work_u64.old work_f64.old }
    ensures { SearchedByLength g k lengths
        work_u32.old work_u64.old work_f64.old
        work_u32.new work_u64.new work_f64.new result }
{
    positions::positions(g, k, work_u32, work_u64);
    search::search_by_length(g.frames, k, lengths, work_u32, work_u64, work_f64)
}

// By count. The parent list has an entry for each piece and candidate.
pub fn search_by_count(
    g: FrameGrid,
    k: usize,
    lengths: Lengths,
    count: usize,
    work_u32: &mut [u32],
    work_u64: &mut [u64],
    work_f64: &mut [f64],
    parent: &mut [u32],
) -> Solved
    requires asked_over { AskedOver g k lengths work_u32.old work_u64.old work_f64.old }
    requires count_nonzero { (0 < count) × (min count (k - 1) * k ≤ length parent.old) }
    ensures { SearchedByCount g k lengths count
        work_u32.old work_u64.old work_f64.old
        work_u32.new work_u64.new work_f64.new result }
{
    positions::positions(g, k, work_u32, work_u64);
    search::search_by_count(
        g.frames, k, lengths, count, work_u32, work_u64, work_f64, parent,
    )
}
