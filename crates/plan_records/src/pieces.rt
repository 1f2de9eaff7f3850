// The pieces of a plan as records.
ghost use Rattle.plan_records.specs.Pieces.{piece_of};

use crate::records::Record;

// A piece of the recording, from sample `start` to the one before `end`.
// Laid out as C does: two 64-bit numbers and two bools, 24 bytes.
#[repr(C)]
#[derive(Clone, Copy)]
pub struct Piece {
    pub start: u64,
    pub end: u64,
    pub too_short: bool,
    pub too_long: bool,
}

// The record of a piece's three numbers: flags 1 is too short, 2 too long, 3 both.
impl Record for Piece {
    ghost made_of = { piece_of };

    fn of(start: u64, end: u64, flags: u64) -> Piece {
        Piece {
            start,
            end,
            too_short: (flags == 1) | (flags == 3),
            too_long: 2 <= flags,
        }
    }
}
