// The search by length or by count over candidates that the tests have passed, its answer handed out only where there
// is room for the whole path.
ghost use Rattle.std.specs.Prelude.{◌≡◌, ◌*◌, ◌≤◌, ◌<◌, length};
ghost use Rattle.path_rules.specs.Paths.{piece_count};
ghost use Rattle.path_by_length.specs.Solved.{TableRoom, cuts_in};
ghost use Rattle.path_by_count.specs.Counted.{TreeRoom};
ghost use Rattle.path_by_count_rows.specs.Rows.{behind};
ghost use Rattle.path_list.specs.Operation.{error_number, outcome_of, handed_by_length, handed_by_count, sought_of};
ghost use Rattle.path_list.specs.Search.{Workable};
ghost use Rattle.path_list.specs.declared.search.Error.TheVariants.{Refused};

use crate::copy;
use base_code::layout::{self, SearchLayout};
use path_by_count::search::search_by_count;
use path_by_length::backtrack;
use path_by_length::search::search_by_length;
use path_pieces::ends::Ends;
use path_pieces::lengths::Lengths;
use path_pieces::mode::Mode;
use path_rules::solved::Solved;
use path_tests::refusal::Refusal;

// Why the operation writes no path.
#[derive(Clone, Copy, Debug, PartialEq, Eq)]
pub enum Error {
    Refused(Refusal),
    ShortParent,
    ShortPath,
}

// A test that fails is why.
impl From<Refusal> for Error {
    ghost from_gives = { λ r e. e ≡ Refused r };

    fn from(r: Refusal) -> Error {
        Error::Refused(r)
    }
}

// Document 01's number for each case.
impl From<Error> for u32 {
    ghost from_gives = { λ e n. n ≡ error_number e };

    fn from(e: Error) -> u32 {
        match e {
            Error::Refused(r) => u32::from(r),
            Error::ShortParent => 14,
            Error::ShortPath => 12,
        }
    }
}

// What the operation answers: the path's score and the number of its candidates, or why it wrote none.
pub type Answer = Result<Solved, Error>;

// By length.
fn by_length(
    ends: &Ends,
    lengths: Lengths,
    over: &mut [u32],
    cost: &mut [f64],
    path: &mut [u32],
) -> Answer
    requires { TableRoom lengths ends.now.left.now ends.now.right.now over.old cost.old }
    ensures { outcome_of result path.new
        ≡ handed_by_length lengths ends.now.left.now ends.now.right.now
        (cuts_in (length ends.now.left.now) cost.old) path.old }
{
    let solved = search_by_length(ends, lengths, over, cost);
    if path.len() < solved.len {
        return Err(Error::ShortPath);
    }
    let n = ends.left.len();
    let places = SearchLayout { candidates: n };
    let parents = &over[layout::behind_table(n)..places.end_by_length()];
    backtrack::backtrack(parents, n - 1, solved.len, path);
    Ok(solved)
}

// By count.
fn by_count(
    ends: &Ends,
    lengths: Lengths,
    count: usize,
    over: &mut [u32],
    cost: &mut [f64],
    parent: &mut [u32],
    path: &mut [u32],
) -> Answer
    requires tree_room { TreeRoom lengths ends.now.left.now ends.now.right.now over.old cost.old }
    requires count_nonzero { 0 < count }
    requires left_in_bounds { piece_count ends.now.left.now count * length ends.now.left.now ≤ length parent.old }
    ensures { outcome_of result path.new
        ≡ handed_by_count lengths ends.now.left.now ends.now.right.now
        (behind (length ends.now.left.now) cost.old) count path.old }
{
    let pieces = count.min(ends.left.len() - 1);
    if path.len() <= pieces {
        return Err(Error::ShortPath);
    }
    Ok(search_by_count(ends, lengths, count, over, cost, parent, path))
}

// By length or by count.
pub fn search(
    ends: &Ends,
    cost: &[f64],
    lengths: Lengths,
    mode: Mode,
    u32s: &mut [u32],
    f64s: &mut [f64],
    parent: &mut [u32],
    path: &mut [u32],
) -> Answer
    requires { Workable lengths ends.now.left.now ends.now.right.now cost.now mode u32s.old f64s.old }
    ensures { outcome_of result path.new
        ≡ sought_of lengths ends.now.left.now ends.now.right.now cost.now mode
        (length parent.old) path.old }
{
    let n = ends.left.len();
    let places = SearchLayout { candidates: n };
    match mode {
        Mode::ByLength => {
            copy::copy_f64(
                cost,
                &mut f64s[layout::behind_table(n)..places.end_by_length()],
            );
            by_length(ends, lengths, u32s, f64s, path)
        }
        Mode::ByCount(count) => {
            let count = count as usize;
            let pieces = count.min(n - 1);
            if parent.len() < pieces * n {
                return Err(Error::ShortParent);
            }
            copy::copy_f64(cost, &mut f64s[places.behind_tree()..places.end_by_count()]);
            by_count(ends, lengths, count, u32s, f64s, parent, path)
        }
    }
}
