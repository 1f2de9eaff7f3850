// The cuts between equal shares of the kept frames, as marks in work memory.
ghost use Rattle.std.specs.Prelude.{◌≡◌, ◌+◌, ◌*◌, ◌≤◌, take};
ghost use Rattle.grid.specs.Limits.{max_frames};
ghost use Rattle.plan_settings.specs.declared.config.Gap.TheVariants.{Drop};
ghost use Rattle.candidate_span.specs.Gaps.{gaps_of, dropped};
ghost use Rattle.candidate_span.specs.Span.{span_in};
ghost use Rattle.division.specs.Shares.{shares_of};
ghost use Rattle.completion_reach.specs.Cuts.{marking};
ghost use Rattle.completion.specs.CutsLaws.{MarkRoom};
ghost use Rattle.completion.specs.Counted.{is_ahead, Counting, Counted};
ghost use Rattle.completion.specs.Shares.{Partable, Parted, Sharable};

use crate::far;
use candidate_span::padding::Padding;
use candidate_span::{bounds, kept, listed};
use completion_reach::ground::Ground;
use completion_reach::place;
use completion_reach::place::HeldCut;
use plan_settings::config::Gap;

// The silences whose gaps are passed, and how many frames these drop.
#[derive(Clone, Copy)]
pub struct Passed {
    pub silences: usize,
    pub removed: usize,
}

// Whether a silence has a gap that starts at boundary k or after it.
fn is_ahead(p: Padding, start: usize, end: usize, k: usize) -> bool
    ensures { result ≡ is_ahead p start end k }
{
    kept::gap_width(p, start, end) != 0 && k <= bounds::silence_bounds(p, start, end).lo
}

// Passes the gaps that start before boundary `at`, counted over kept frames alone: each moves it on.
fn pass_gaps(p: Padding, silences: &[u32], at: usize, passed: Passed) -> Passed
    requires counting { Counting Drop p silences.now at passed }
    requires silences_bound { at + dropped (gaps_of Drop p silences.now) ≤ max_frames }
    ensures { Counted Drop p silences.now at result }
{
    let mut removed = passed.removed;
    for i in passed.silences..silences.len() / 2 {
        let start = listed::start_at(silences, i);
        let end = listed::end_at(silences, i);
        if is_ahead(p, start, end, at + removed) {
            return Passed {
                silences: i,
                removed,
            };
        }
        removed += kept::gap_width(p, start, end);
    }
    Passed {
        silences: silences.len() / 2,
        removed,
    }
}

// The same with gaps kept or dropped. Where silence is kept no boundary moves.
fn pass(gap: Gap, p: Padding, silences: &[u32], at: usize, passed: Passed) -> Passed
    requires counting { Counting gap p silences.now at passed }
    requires silences_bound { at + dropped (gaps_of gap p silences.now) ≤ max_frames }
    ensures { Counted gap p silences.now at result }
{
    match gap {
        Gap::Keep => passed,
        Gap::Drop => pass_gaps(p, silences, at, passed),
    }
}

// A cut, and the gaps that are passed before it.
#[derive(Clone, Copy)]
pub struct Share {
    pub cut: HeldCut,
    pub passed: Passed,
}

// The cut after a share that ends at boundary `at`, counted over kept frames alone.
fn share_cut(x: Ground, silences: &[u32], at: usize, passed: Passed) -> Share
    requires { Partable x silences.now at passed }
    ensures { Parted x silences.now at result }
{
    let now = pass(x.gap, x.padding, silences, at, passed);
    Share {
        cut: place::place_at(x, silences, at + now.removed),
        passed: now,
    }
}

// Marks the cuts between `pieces` equal shares of the kept frames, of which there are `frames`.
// Work memory is as for `far::mark_far`.
pub fn mark_shares(x: Ground, base: usize, frames: usize, pieces: usize, work: &mut [u32])
    requires mark_room { MarkRoom x base work.old }
    requires sharable { Sharable x frames pieces (take (2 * x.span.silences) work.old) }
    ensures { work.new ≡ marking base
        (shares_of (span_in x.gap x.padding x.span (take (2 * x.span.silences) work.old)) pieces)
        work.old }
{
    let mut passed = Passed {
        silences: 0,
        removed: 0,
    };
    for i in 1..pieces {
        let at = x.span.first + i * frames / pieces;
        let share = share_cut(x, &work[..2 * x.span.silences], at, passed);
        far::mark_cut(base, share.cut, work);
        passed = share.passed;
    }
}
