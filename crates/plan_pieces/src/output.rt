// The plan of a path, handed out whole or not at all: refusal 12.
ghost use Rattle.std.specs.Prelude.{◌≡◌, ◌-◌, ◌*◌, ◌≤◌, ◌<◌, length};
ghost use Rattle.plan_pieces.specs.Along.{reasons_in, pieces_along_numbers, cuts_along_numbers};
ghost use Rattle.plan_pieces.specs.Drawn.{Drawn};
ghost use Rattle.plan_pieces.specs.Output.{has_room, output_of, handed_of, handed_out_of};

use crate::answer::{Answer, Error};
use crate::pieces;
use path_pieces::ends::Ends;

// Test 12 for so many pieces, over outputs of these lengths.
fn has_room(pieces: usize, pieces_len: usize, cuts_len: usize) -> bool
    ensures { result ≡ has_room pieces pieces_len cuts_len }
{
    pieces <= pieces_len / 3 && pieces <= cuts_len / 3 + 1
}

// Writes the plan of a path to the fronts of both outputs, if both have room.
pub fn hand_out(
    ends: &Ends,
    entries: &[u32],
    path: &[u32],
    min: f64,
    max: u64,
    pieces: &mut [u64],
    cuts: &mut [u64],
) -> Answer
    requires drawn { Drawn ends.now.left.now ends.now.right.now path.now }
    requires left_in_bounds { 3 * length ends.now.left.now ≤ length entries.now }
    requires path_nonzero { 0 < length path.now }
    ensures { handed_of result (output_of pieces.new cuts.new)
        ≡ handed_out_of (length path.now - 1)
        (pieces_along_numbers ends.now.left.now ends.now.right.now min max path.now)
        (cuts_along_numbers ends.now.left.now ends.now.right.now (reasons_in entries.now)
        path.now)
        (output_of pieces.old cuts.old) }
{
    let piece_count = path.len() - 1;
    if !has_room(piece_count, pieces.len(), cuts.len()) {
        return Err(Error::ShortOutput);
    }
    pieces::write_pieces(ends, path, min, max, pieces);
    pieces::write_cuts(ends, entries, path, cuts);
    Ok(piece_count)
}
