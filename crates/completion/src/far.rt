// The cuts of the division that goes as far as it can at each step, as marks in work memory.
ghost use Rattle.std.specs.Prelude.{◌≡◌, ◌+◌, ◌*◌, ◌<◌, length, take};
ghost use Rattle.candidate_span.specs.Span.{span_in};
ghost use Rattle.completion_reach.specs.Cuts.{cuts_of, mark_cut, marking};
ghost use Rattle.completion_reach.specs.Place.{cut_held};
ghost use Rattle.completion.specs.CutsLaws.{MarkRoom};

use completion_reach::ground::Ground;
use completion_reach::next;
use completion_reach::next::Next;
use completion_reach::place::HeldCut;

// Marks a cut, if it is at one boundary.
// A gap is a candidate already, and a point at its left end would compete with it.
pub fn mark_cut(base: usize, cut: HeldCut, work: &mut [u32])
    requires { base + cut.left < length work.old }
    ensures { work.new ≡ mark_cut base (cut_held cut) work.old }
{
    if cut.left == cut.right {
        work[base + cut.left] = 1;
    }
}

// Marks the cuts of at most `pieces` pieces.
// The span's silences stand in front, two numbers each; the mark of boundary k stands at `base` + k.
pub fn mark_far(x: Ground, base: usize, pieces: usize, limit: u64, work: &mut [u32])
    requires { MarkRoom x base work.old }
    ensures { work.new ≡ marking base
        (cuts_of x.grid (span_in x.gap x.padding x.span (take (2 * x.span.silences) work.old))
        limit pieces) work.old }
{
    let mut at = x.span.first;
    for _ in 0..pieces {
        match next::next_cut(x, &work[..2 * x.span.silences], at, limit) {
            Next::Whole | Next::Stuck => return,
            Next::To(cut) => {
                mark_cut(base, cut, work);
                at = cut.right;
            }
        }
    }
}
