// The cuts of a plan as records.
ghost use Rattle.std.specs.Prelude.{◌≡◌};
ghost use Rattle.plan_records.specs.Cuts.{reason_of, cut_of};

use crate::records::Record;

// A cut between two pieces, in samples, and the number of its reason: 0 silence, 1 quiet, 2 forced.
// Laid out as C does: two 64-bit numbers and a byte, 24 bytes.
// A number leaves the byte free in memory that C lends, where an enum would not.
#[repr(C)]
#[derive(Clone, Copy)]
pub struct Cut {
    pub previous_end: u64,
    pub next_start: u64,
    pub reason: u8,
}

// The number of a reason as a byte; every number above 2 is forced.
fn reason_of(number: u64) -> u8
    ensures { result ≡ reason_of number }
{
    number.min(2) as u8
}

// The record of a cut's three numbers.
impl Record for Cut {
    ghost made_of = { cut_of };

    fn of(previous_end: u64, next_start: u64, number: u64) -> Cut {
        Cut {
            previous_end,
            next_start,
            reason: reason_of(number),
        }
    }
}
