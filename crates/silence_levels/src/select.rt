// The k-th smallest of a list of keys, found digit by digit from the top: three passes, none of which moves a key.
ghost use Rattle.std.specs.Prelude.{◌≡◌, ◌<◌, ◌+◌, length, get_or};
ghost use Rattle.silence_levels.specs.Select.{counts_of, hits, total_count, DigitFound, Narrowed};
ghost use Rattle.silence_levels.specs.Sorted.{sorted};

// Where a rank falls in a table of counts: the digit, and the rank among the keys with that digit.
#[derive(Clone, Copy)]
pub struct Place {
    pub digit: usize,
    pub rank: usize,
}

// The keys whose bits above a shift are `prefix`, and a rank among them.
#[derive(Clone, Copy)]
pub struct Block {
    pub prefix: u32,
    pub rank: usize,
}

// How many keys have each next digit, among those whose bits above it are `prefix`. Other keys add 0, with no branch.
fn histogram(keys: &[u32], shift: u32, prefix: u32) -> [usize; 2048]
    requires { shift < 32 }
    ensures { result ≡ counts_of keys.now shift prefix }
{
    let mut counts = [0usize; 2048];
    for key in keys {
        let head = *key >> shift;
        counts[(head % 2048) as usize] += usize::from(head / 2048 == prefix);
    }
    counts
}

// The digit at which the counts passed rise above the rank.
fn walk(counts: &[usize; 2048], rank: usize) -> Place
    requires { rank < total_count counts.now }
    ensures { DigitFound counts.now rank result }
{
    let mut left = rank;
    for (digit, count) in counts.iter().enumerate() {
        if left < *count {
            return Place { digit, rank: left };
        }
        left -= *count;
    }
    unreachable!()
}

// One pass: the block of the next digit in which the rank falls.
fn narrow(keys: &[u32], shift: u32, block: Block) -> Block
    requires shift_bound { shift < 32 }
    requires rank_bound { block.rank < hits keys.now (shift + 11) block.prefix }
    ensures { Narrowed keys.now shift block result }
{
    let place = walk(&histogram(keys, shift, block.prefix), block.rank);
    Block {
        prefix: block.prefix * 2048 + place.digit as u32,
        rank: place.rank,
    }
}

// The table of the keys' first digits, from which every selection starts.
pub fn first_digits(keys: &[u32]) -> [usize; 2048]
    ensures { result ≡ counts_of keys.now 22 0 }
{
    histogram(keys, 22, 0)
}

// The key at `rank` of the keys in order, counted from 0.
pub fn select(keys: &[u32], first: &[usize; 2048], rank: usize) -> u32
    requires rank_in_bounds { rank < length keys.now }
    requires first_value { first.now ≡ counts_of keys.now 22 0 }
    ensures { result ≡ get_or (sorted keys.now) rank 0 }
{
    let place = walk(first, rank);
    let second = narrow(
        keys,
        11,
        Block {
            prefix: place.digit as u32,
            rank: place.rank,
        },
    );
    let last = narrow(keys, 0, second);
    last.prefix
}
