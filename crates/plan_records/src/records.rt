// Records of a plan's numbers, three for each, whatever they are records of.
ghost use Rattle.std.specs.Prelude.{◌≡◌, ℕ, ◌+◌, ◌*◌, ◌<◌, length};
ghost use Rattle.plan_records.specs.Records.{record_at, records_end, records_end_of};

// What three numbers of a plan are the record of.
pub trait Record: Copy {
    // the record of three numbers
    ghost made_of: { ℕ → ℕ → ℕ → Self };

    // Makes the record.
    fn of(first: u64, second: u64, third: u64) -> Self
        ensures { result ≡ made_of first second third };
}

// Record i of a plan's numbers.
pub fn record_at<R: Record>(numbers: &[u64], i: usize) -> R
    requires { 3 * i + 2 < length numbers.now }
    ensures { result ≡ record_at R.made_of numbers.now i }
{
    R::of(numbers[3 * i], numbers[3 * i + 1], numbers[3 * i + 2])
}

// Writes a record for each three numbers to the front of `records`: 0, or 12 and nothing is written where the list is
// too short. A rest of one or two numbers is no record. C gets these numbers as they are: the C interface.
pub fn write_records<R: Record>(numbers: &[u64], records: &mut [R]) -> u32
    ensures { records_end result records.new
        ≡ records_end_of R.made_of numbers.now records.old }
{
    let count = numbers.len() / 3;
    if records.len() < count {
        return 12;
    }
    for i in 0..count {
        records[i] = record_at(numbers, i);
    }
    0
}
