// What is counted of a sample.
ghost use Rattle.std.specs.Prelude.{◌≡◌};
ghost use Rattle.answers_jobs.specs.Tally.{UpTo, no_record, too_long_of, with_record};

// A sample has at most so many bytes. A program has room for one more, so that longer input is seen and not cut.
pub const MOST: usize = 131_072;

// How many records were replayed, how many of them before the first that differs, and how many were answered otherwise
// or are not whole.
// The last records of a sample are spoiled on purpose: where these three are known, so is which records differ.
#[derive(Clone, Copy)]
pub struct Tally {
    pub records: u64,
    pub agreeing: u64,
    pub differences: u64,
}

// Nothing is replayed yet.
pub fn nothing() -> Tally
    ensures { result ≡ no_record }
{
    Tally {
        records: 0,
        agreeing: 0,
        differences: 0,
    }
}

// Longer input is no sample.
pub fn too_long() -> Tally
    ensures { result ≡ too_long_of }
{
    Tally {
        records: 0,
        agreeing: 0,
        differences: 1,
    }
}

// With one record more, answered as it is stored or not.
pub fn with_record(t: Tally, same: bool) -> Tally
    requires { UpTo 131072 t }
    ensures { result ≡ with_record t same }
{
    let records = t.records + 1;
    if !same {
        return Tally {
            records,
            differences: t.differences + 1,
            ..t
        };
    }
    if t.differences == 0 {
        return Tally {
            records,
            agreeing: records,
            ..t
        };
    }
    Tally { records, ..t }
}
