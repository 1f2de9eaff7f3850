// The pieces and cuts of a plan as records, in lists that the caller lends.
// A list is lent with records in it, as zeroed memory has them: a bool is 0 or 1.
ghost use Rattle.std.specs.Prelude.{◌≡◌};
ghost use Rattle.plan_records.specs.Records.{records_end, records_end_of};
ghost use Rattle.plan_records.specs.Pieces.{piece_of};
ghost use Rattle.plan_records.specs.Cuts.{cut_of};

use plan_records::cuts::Cut;
use plan_records::pieces::Piece;
use plan_records::records;

// Writes a record for each piece to the front of `records`: 0, or 12 and nothing is written
// where the list is too short.
// `numbers` has three numbers for each piece, as `buchawzer_plan` writes them:
// the first 3 n of its pieces, for n pieces.
// A rest of one or two is no piece.
pub fn buchawzer_piece_records(numbers: &[u64], records: &mut [Piece]) -> u32
    ensures { records_end result records.new
        ≡ records_end_of piece_of numbers.now records.old }
{
    records::write_records(numbers, records)
}

// The same of cuts: the first 3 (n - 1) numbers of `buchawzer_plan`'s cuts.
pub fn buchawzer_cut_records(numbers: &[u64], records: &mut [Cut]) -> u32
    ensures { records_end result records.new
        ≡ records_end_of cut_of numbers.now records.old }
{
    records::write_records(numbers, records)
}
