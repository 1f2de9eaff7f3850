// The pieces and cuts of a plan, written to the front of lists of numbers from a path that was found.
ghost use Rattle.std.specs.Prelude.{◌≡◌, suc, ◌+◌, ◌-◌, ◌*◌, ◌≤◌, ◌<◌, length};
ghost use Rattle.base_terms.specs.Lists.{onto};
ghost use Rattle.plan_pieces.specs.Along.{piece_at, pieces_along_numbers, reasons_in, cuts_along_numbers, put_three};
ghost use Rattle.plan_pieces.specs.Drawn.{Drawn};

use crate::flags;
use path_pieces::ends::Ends;

// Where a piece lies, in samples.
#[derive(Clone, Copy)]
pub struct PieceEnds {
    pub start: u64,
    pub end: u64,
}

// Piece i of a path: from the right end of one candidate to the left end of the next.
fn piece_at(ends: &Ends, path: &[u32], i: usize) -> PieceEnds
    requires drawn { Drawn ends.now.left.now ends.now.right.now path.now }
    requires i_in_bounds { suc i < length path.now }
    ensures { result ≡ piece_at ends.now.left.now ends.now.right.now path.now i }
{
    let from = path[i] as usize;
    let to = path[i + 1] as usize;
    PieceEnds {
        start: ends.right[from],
        end: ends.left[to],
    }
}

// Writes three numbers from `at` on.
fn put_three(at: usize, a: u64, b: u64, c: u64, out: &mut [u64])
    requires { at + 3 ≤ length out.old }
    ensures { out.new ≡ put_three at a b c out.old }
{
    out[at] = a;
    out[at + 1] = b;
    out[at + 2] = c;
}

// Writes the pieces along a path to the front of a list: start, end and flags of each.
pub fn write_pieces(ends: &Ends, path: &[u32], min: f64, max: u64, out: &mut [u64])
    requires drawn { Drawn ends.now.left.now ends.now.right.now path.now }
    requires path_in_bounds { 3 * (length path.now - 1) ≤ length out.old }
    ensures { out.new
        ≡ onto (pieces_along_numbers ends.now.left.now ends.now.right.now min max path.now)
        out.old }
{
    let pieces = path.len().saturating_sub(1);
    for i in 0..pieces {
        let p = piece_at(ends, path, i);
        let tail = flags::is_tail(i, pieces);
        let flags = flags::flags_of(p.end - p.start, tail, min, max);
        put_three(3 * i, p.start, p.end, flags, out);
    }
}

// Writes the cuts along a path to the front of a list: the end of the piece before, the start of the next
// and the reason of each.
// The reason of candidate j stands at entries[3 j + 2].
pub fn write_cuts(ends: &Ends, entries: &[u32], path: &[u32], out: &mut [u64])
    requires drawn { Drawn ends.now.left.now ends.now.right.now path.now }
    requires left_in_bounds { 3 * length ends.now.left.now ≤ length entries.now }
    requires path_in_bounds { 3 * (length path.now - 2) ≤ length out.old }
    ensures { out.new
        ≡ onto
        (cuts_along_numbers ends.now.left.now ends.now.right.now (reasons_in entries.now)
        path.now)
        out.old }
{
    let cuts = path.len().saturating_sub(2);
    for i in 0..cuts {
        let j = path[i + 1] as usize;
        let end = ends.left[j];
        let start = ends.right[j];
        let reason = u64::from(entries[3 * j + 2]);
        put_three(3 * i, end, start, reason, out);
    }
}
