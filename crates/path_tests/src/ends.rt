// Tests 15 and 16: the lists of candidates, their ends and the limit.
ghost use Rattle.std.specs.Prelude.{◌≡◌, length};
ghost use Rattle.path_tests.specs.Ends.{lists_ok, end_ok, ends_ok};

use path_pieces::ends::Ends;

// The most candidates: 2^20 + 1.
const MAX_CANDIDATES: usize = 1048577;

// The highest end and the highest limit, in samples: 2^40.
const MAX_END: u64 = 1099511627776;

// Test 15: how many left ends, right ends and costs there are.
#[tactic(auto, unfolding(crate::specs::Ends::lists_ok))]
pub fn lists_ok(lefts: usize, rights: usize, costs: usize) -> bool
    ensures { result ≡ lists_ok lefts rights costs }
{
    0 < lefts && lefts <= MAX_CANDIDATES && rights == lefts && costs == lefts
}

// Whether a candidate is in order, and not before the right end `last`.
#[tactic(auto, unfolding(crate::specs::Ends::end_ok))]
fn end_ok(last: u64, left: u64, right: u64) -> bool
    ensures { result ≡ end_ok last left right }
{
    last <= left && left <= right && right <= MAX_END
}

// Test 16: the ends of all candidates, and the limit.
pub fn ends_ok(ends: &Ends, limit: u64) -> bool
    requires { length ends.now.right.now ≡ length ends.now.left.now }
    ensures { result ≡ ends_ok ends.now.left.now ends.now.right.now limit }
{
    if MAX_END < limit {
        return false;
    }
    let mut last: u64 = 0;
    for (&start, &end) in ends.left.iter().zip(ends.right) {
        if !end_ok(last, start, end) {
            return false;
        }
        last = end;
    }
    true
}
