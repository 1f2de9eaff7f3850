// Test 8, and the chain of all tests.
ghost use Rattle.std.specs.Prelude.{◌≡◌};
ghost use Rattle.path_tests.specs.Refusal.{is_count, count_ok, first_refusal_of, number_of};

use crate::costs;
use crate::ends::{ends_ok, lists_ok};
use base_code::work;
use path_pieces::ends::Ends;
use path_pieces::lengths::Lengths;
use path_pieces::mode::Mode;

// The most pieces that may be asked for: 2^20.
const MAX_COUNT: u32 = 1048576;

// Why a test fails.
#[derive(Clone, Copy, Debug, PartialEq, Eq)]
pub enum Refusal {
    BadLists,
    BadEnds,
    BadCosts,
    BadCount,
    ShortWork,
}

// Document 01's number for each case.
impl From<Refusal> for u32 {
    ghost from_gives = { λ r n. n ≡ number_of r };

    fn from(r: Refusal) -> u32 {
        match r {
            Refusal::BadLists => 15,
            Refusal::BadEnds => 16,
            Refusal::BadCosts => 17,
            Refusal::BadCount => 8,
            Refusal::ShortWork => 13,
        }
    }
}

// Whether so many pieces may be asked for.
#[tactic(auto, unfolding(crate::specs::Refusal::is_count))]
fn is_count(count: u32) -> bool
    ensures { result ≡ is_count count }
{
    0 < count && count <= MAX_COUNT
}

// Test 8: by count only, how many pieces are asked for.
#[tactic(auto, unfolding(crate::specs::Refusal::count_ok))]
pub fn count_ok(mode: Mode) -> bool
    ensures { result ≡ count_ok mode }
{
    match mode {
        Mode::ByLength => true,
        Mode::ByCount(count) => is_count(count),
    }
}

// The tests in document 01's order: that none fails, or the first that does. It reads the candidates alone, and of work memory its lengths.
#[tactic(auto, unfolding(crate::specs::Refusal::first_refusal_of))]
pub fn first_refusal(
    ends: &Ends,
    cost: &[f64],
    lengths: Lengths,
    mode: Mode,
    n32: usize,
    n64: usize,
    nf: usize,
) -> Result<(), Refusal>
    ensures { result ≡ first_refusal_of ends.now.left.now ends.now.right.now cost.now lengths mode n32 n64 nf }
{
    if !lists_ok(ends.left.len(), ends.right.len(), cost.len()) {
        return Err(Refusal::BadLists);
    }
    if !ends_ok(ends, lengths.limit) {
        return Err(Refusal::BadEnds);
    }
    if !costs::costs_ok(cost) {
        return Err(Refusal::BadCosts);
    }
    if !costs::lengths_ok(lengths) {
        return Err(Refusal::BadCosts);
    }
    if !count_ok(mode) {
        return Err(Refusal::BadCount);
    }
    if !work::work_ok(ends.left.len(), n32, n64, nf) {
        return Err(Refusal::ShortWork);
    }
    Ok(())
}
