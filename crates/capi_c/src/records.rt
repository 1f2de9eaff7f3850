// The exports of a plan's records.
ghost use Rattle.std.specs.Prelude.{◌≡◌};
ghost use Rattle.plan_records.specs.Records.{records_end, records_end_of};
ghost use Rattle.plan_records.specs.Pieces.{piece_of};
ghost use Rattle.plan_records.specs.Cuts.{cut_of};

use capi::records;
use plan_records::cuts::Cut;
use plan_records::pieces::Piece;

#[unsafe(no_mangle)]
pub extern "C" fn buchawzer_piece_records(numbers: &[u64], records: &mut [Piece]) -> u32
    ensures { records_end result records.new
        ≡ records_end_of piece_of numbers.now records.old }
{
    records::buchawzer_piece_records(numbers, records)
}

#[unsafe(no_mangle)]
pub extern "C" fn buchawzer_cut_records(numbers: &[u64], records: &mut [Cut]) -> u32
    ensures { records_end result records.new
        ≡ records_end_of cut_of numbers.now records.old }
{
    records::buchawzer_cut_records(numbers, records)
}
