// The candidates of the span, one boundary after another.
ghost use Rattle.std.specs.Prelude.{◌≡◌, ◌+◌, ◌*◌, ◌≤◌, length};
ghost use Rattle.base_terms.specs.Layout.{entries_at, costs_at};
ghost use Rattle.candidate_points.specs.Placed.{placed};
ghost use Rattle.candidates.specs.Entries.{entries_of, costs_of};
ghost use Rattle.candidate_walk.specs.Held.{silences_held};
ghost use Rattle.candidate_walk.specs.Collect.{own_here, next_own, entries_here, costs_here, walk_of};
ghost use Rattle.candidate_walk.specs.Collect.{inner_from, inner_to, inside_held, collected, entries_all, costs_all};
ghost use Rattle.candidate_walk.specs.CollectLaws.{Passing, Collectable};
ghost use Rattle.candidate_walk.specs.CollectStep.{InnerRange};

use crate::{held, put};
use base_code::layout::Layout;
use candidate_span::held::HeldSpan;
use candidate_span::listed;
use candidates::candidate;
use candidates::candidate::Candidate;
use candidates::context::Context;

// What the walk over the boundaries holds.
#[derive(Clone, Copy)]
pub struct Walk {
    // The next silence, and its own candidate, where it has sound on both sides.
    pub silence: usize,
    pub own: Option<Candidate>,
    // How many candidates were written.
    pub written: usize,
}

// The next silence's own candidate, where its left end is boundary k.
#[tactic(auto, unfolding(crate::specs::Collect::starting_at))]
fn own_here(w: Walk, k: usize) -> Option<Candidate>
    ensures { result ≡ own_here w k }
{
    match w.own {
        Some(own) if own.left == k => Some(own),
        _ => None,
    }
}

// Writes the candidate at boundary k, if there is one:
// the next silence's own, the point that is marked there, or the cheaper of the two.
fn pass(
    x: Context,
    silences: usize,
    stop: usize,
    k: usize,
    marked: bool,
    w: Walk,
    work_u32: &mut [u32],
    work_f64: &mut [f64],
) -> Walk
    requires { Passing x silences stop k w work_u32.old work_f64.old }
    ensures value { result ≡ walk_of x silences stop k marked w work_u32.old work_f64.old }
    ensures work_u32_after { work_u32.new
        ≡ entries_here x silences k marked w work_u32.old work_f64.old }
    ensures work_f64_after { work_f64.new
        ≡ costs_here x silences k marked w work_u32.old work_f64.old }
{
    let n = x.padding.frames;
    if let Some(own) = own_here(w, k) {
        let c = held::with_point(x, silences, k, own, marked, work_u32, work_f64);
        let next = held::next_own(x, silences, stop, w.silence + 1, work_u32, work_f64);
        put::put(c, w.written, n, work_u32, work_f64);
        return Walk {
            silence: w.silence + 1,
            own: next,
            written: w.written + 1,
        };
    }
    if marked {
        let c = held::point_in(x, silences, k, work_u32, work_f64);
        put::put(c, w.written, n, work_u32, work_f64);
        return Walk {
            silence: w.silence,
            own: w.own,
            written: w.written + 1,
        };
    }
    w
}

// Passes over the boundaries strictly inside the span, and writes their candidates from number 1 on.
// Returns how many stand there then, number 0 included.
fn pass_all(
    x: Context,
    span: HeldSpan,
    stop: usize,
    from: usize,
    own: Option<Candidate>,
    work_u32: &mut [u32],
    work_f64: &mut [f64],
) -> usize
    requires collectable { Collectable x span work_u32.old work_f64.old }
    requires inner_range { InnerRange x (silences_held span.silences work_u32.old) from stop }
    requires own_value { own ≡ next_own x span.silences stop work_u32.old work_f64.old from }
    ensures value { result ≡ length (inside_held x span work_u32.old work_f64.old) + 1 }
    ensures work_u32_after { work_u32.new
        ≡ placed (entries_at x.padding.frames + 3)
        (entries_of (inside_held x span work_u32.old work_f64.old))
        work_u32.old }
    ensures work_f64_after { work_f64.new
        ≡ placed (costs_at x.padding.frames + 1)
        (costs_of (inside_held x span work_u32.old work_f64.old))
        work_f64.old }
{
    let places = Layout {
        frames: x.padding.frames,
    };
    let marks = places.marks_at();
    let mut w = Walk {
        silence: from,
        own,
        written: 1,
    };
    for k in span.first + 1..span.last {
        let marked = work_u32[marks + k] != 0;
        // Most boundaries have no candidate: what `pass` is handed is copied only where there is one.
        if marked | own_here(w, k).is_some() {
            w = pass(x, span.silences, stop, k, marked, w, work_u32, work_f64);
        }
    }
    w.written
}

// The first of so many silences with sound on both sides:
// silence at the recording's start has sound on one side only.
#[tactic(auto, unfolding(crate::specs::Collect::inner_from))]
fn inner_from(silences: usize, work_u32: &[u32]) -> usize
    requires { 2 * silences ≤ length work_u32.now }
    ensures { result ≡ inner_from silences work_u32.now }
{
    if silences > 0 && listed::start_at(work_u32, 0) == 0 {
        1
    } else {
        0
    }
}

// The silence after the last such one.
#[tactic(auto, unfolding(crate::specs::Collect::inner_to))]
fn inner_to(frames: usize, silences: usize, work_u32: &[u32]) -> usize
    requires { 2 * silences ≤ length work_u32.now }
    ensures { result ≡ inner_to frames silences work_u32.now }
{
    if silences > 0 && listed::end_at(work_u32, silences - 1) == frames {
        silences - 1
    } else {
        silences
    }
}

// Writes the candidates of the span down in work memory. Returns how many there are.
pub fn collect(x: Context, span: HeldSpan, work_u32: &mut [u32], work_f64: &mut [f64]) -> usize
    requires { Collectable x span work_u32.old work_f64.old }
    ensures value { result ≡ length (collected x span work_u32.old work_f64.old) }
    ensures work_u32_after { work_u32.new ≡ entries_all x span work_u32.old work_f64.old }
    ensures work_f64_after { work_f64.new ≡ costs_all x span work_u32.old work_f64.old }
{
    let n = x.padding.frames;
    let from = inner_from(span.silences, work_u32);
    let stop = inner_to(n, span.silences, work_u32);
    let own = held::next_own(x, span.silences, stop, from, work_u32, work_f64);
    let written = pass_all(x, span, stop, from, own, work_u32, work_f64);
    put::put(candidate::node(span.first), 0, n, work_u32, work_f64);
    put::put(candidate::node(span.last), written, n, work_u32, work_f64);
    written + 1
}
