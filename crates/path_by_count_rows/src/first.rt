// The first start of the pieces that end at each candidate.
ghost use Rattle.std.specs.Prelude.{◌≡◌, ◌-◌, ◌≤◌, ◌<◌, length};
ghost use Rattle.path_pieces.specs.Pieces.{is_within};
ghost use Rattle.path_pieces.specs.Domain.{Candidates};
ghost use Rattle.path_by_count_rows.specs.First.{first_passing, FirstStarts};

use path_pieces::ends::Ends;

// From candidate p on, the first whose piece to candidate j is within the limit, and j - 1 where none before is.
fn advance(ends: &Ends, limit: u64, p: usize, j: usize) -> usize
    requires candidates { Candidates ends.now.left.now ends.now.right.now }
    requires p_lt_j { p < j }
    requires j_in_bounds { j < length ends.now.left.now }
    ensures { result ≡ first_passing (is_within limit ends.now.left.now ends.now.right.now j) p (j - 1 - p) }
{
    let last = j - 1;
    for i in p..last {
        if ends.left[j] - ends.right[i] <= limit {
            return i;
        }
    }
    last
}

// Writes the first start of each candidate. It never goes back as j goes on, so one pass finds them all.
pub fn first_starts(ends: &Ends, limit: u64, first: &mut [u32])
    requires candidates { Candidates ends.now.left.now ends.now.right.now }
    requires first_len { length first.old ≡ length ends.now.left.now }
    ensures { FirstStarts limit ends.now.left.now ends.now.right.now first.new }
{
    first[0] = 0;
    let mut p = 0;
    for j in 1..ends.left.len() {
        p = advance(ends, limit, p, j);
        first[j] = p as u32;
    }
}
