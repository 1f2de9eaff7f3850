// One grid point for each block: the quietest boundary of it, the first of equals.
ghost use Rattle.std.specs.Prelude.{◌≡◌, ◌≤◌, ◌<◌, length};
ghost use Rattle.candidate_points.specs.Points.{is_set, block_end, marks_of};
ghost use Rattle.candidate_points.specs.PointsWalk.{next_of, stepped, SpanFlagged, Marked};

use crate::fill;
use candidate_costs::quietest;
use candidate_span::bounds;

// Where the block that starts at boundary k ends.
fn block_end(block: usize, last: usize, k: usize, flags: &[u32]) -> usize
    requires { (k < last) × (last ≤ length flags.now) }
    ensures { result ≡ block_end (is_set flags.now) block last k }
{
    let most = bounds::after(last, k, block);
    for end in k..most {
        if flags[end] != 0 {
            return end;
        }
    }
    most
}

// At a blocked boundary: its flag goes, and the next boundary follows. At an open one: its block's point is marked, and
// the block's end follows.
fn mark_block(block: usize, last: usize, k: usize, levels: &[f64], marks: &mut [u32]) -> usize
    requires { SpanFlagged block k last levels.now marks.old }
    ensures value { result ≡ next_of (is_set marks.old) block last k }
    ensures marks_after { marks.new ≡ stepped levels.now block last k marks.old }
{
    if marks[k] != 0 {
        marks[k] = 0;
        return k + 1;
    }
    let end = block_end(block, last, k, marks);
    let at = quietest::quietest(levels, k, end);
    marks[at] = 1;
    end
}

// Blocks restart after every blocked stretch, so a stretch longer than a block, such as long padding, never leaves the
// candidates on either side of it more than a block away.
fn mark_blocks(block: usize, first: usize, last: usize, levels: &[f64], marks: &mut [u32])
    requires { SpanFlagged block first last levels.now marks.old }
    ensures { Marked levels.now block first last marks.old marks.new }
{
    let mut k = first + 1;
    // A `while`: each step says where the next block starts.
    while k < last {
        k = mark_block(block, last, k, levels, marks);
    }
}

// Turns the flags of blocked boundaries into marks: 1 at each grid point of the span from boundary `first` to `last`,
// and else 0.
pub fn mark_points(block: usize, first: usize, last: usize, levels: &[f64], marks: &mut [u32])
    requires { SpanFlagged block first last levels.now marks.old }
    ensures { marks.new ≡ marks_of levels.now block first last marks.old }
{
    mark_blocks(block, first, last, levels, marks);
    fill::fill_range(marks, 0, first + 1, 0);
    let end = marks.len();
    fill::fill_range(marks, last, end, 0);
}
