// The whole listing.
ghost use Rattle.std.specs.Prelude.{◌-◌, ◌*◌, ◌≤◌, ◌≡◌, length};
ghost use Rattle.base_terms.specs.Lists.{onto};
ghost use Rattle.io.specs.Counts.{IsPrefixLen};
ghost use Rattle.listing.specs.Rows.{rows_of};
ghost use Rattle.listing.specs.Listing.{lines_of, listing_of, refusal_line};
ghost use Rattle.listing.specs.Listing.{room_for, refusal_room};
ghost use Rattle.listing.specs.Written.{Room, Written};

use crate::line;
use crate::line::{Cut, Piece, Row};

// A line for each of n rows, of which row i stands at rows[3 i ..].
fn put_rows<R: Row>(n: usize, rows: &[u64], at: usize, out: &mut [u8]) -> usize
    requires n_in_bounds { 3 * n ≤ length rows.now }
    requires room { Room (length (lines_of R.line (rows_of n rows.now))) out.old at }
    ensures { Written (lines_of R.line (rows_of n rows.now)) out.old at out.new result }
{
    let mut next = at;
    // By the number of a row, as the definition `row_at` has it: chunks of three would need a law of their own.
    for i in 0..n {
        next = R::put(rows[3 * i], rows[3 * i + 1], rows[3 * i + 2], next, out);
    }
    next
}

// Writes the listing of a plan of n pieces to the front of `out`, and answers how many bytes it has.
// `IsPrefixLen` lets a caller hand on that front.
pub fn write_plan(n: usize, pieces: &[u64], cuts: &[u64], out: &mut [u8]) -> usize
    requires pieces_in_bounds { 3 * n ≤ length pieces.now }
    requires cuts_in_bounds { 3 * (n - 1) ≤ length cuts.now }
    requires out_in_bounds { room_for n ≤ length out.old }
    ensures value { result ≡ length (listing_of n pieces.now cuts.now) }
    ensures out_after { out.new
        ≡ onto (listing_of n pieces.now cuts.now) out.old }
    ensures prefix_len { IsPrefixLen result out.new }
{
    let m = n.saturating_sub(1);
    let at = line::put_plan(n as u64, m as u64, 0, out);
    let at = put_rows::<Piece>(n, pieces, at, out);
    put_rows::<Cut>(m, cuts, at, out)
}

// Writes the line of a refusal to the front of `out`, and answers how many bytes it has.
pub fn write_refusal(number: u32, out: &mut [u8]) -> usize
    requires { refusal_room ≤ length out.old }
    ensures value { result ≡ length (refusal_line number) }
    ensures out_after { out.new ≡ onto (refusal_line number) out.old }
    ensures prefix_len { IsPrefixLen result out.new }
{
    line::put_refusal(number as u64, 0, out)
}
