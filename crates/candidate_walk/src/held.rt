// Candidates from what work memory holds.
ghost use Rattle.std.specs.Prelude.{◌≡◌, ◌<◌};
ghost use Rattle.candidates.specs.Candidates.{own_at};
ghost use Rattle.candidate_walk.specs.Held.{silences_held, levels_held};
ghost use Rattle.candidate_walk.specs.Collect.{point_held, next_own, with_point};
ghost use Rattle.candidate_walk.specs.CollectLaws.{Holding, AtBoundary, AtSilence};

use base_code::layout::Layout;
use candidates::candidate::Candidate;
use candidates::context::Context;
use candidates::{candidate, own, point};

// The point at boundary k.
pub fn point_in(
    x: Context,
    silences: usize,
    k: usize,
    work_u32: &[u32],
    work_f64: &[f64],
) -> Candidate
    requires holding { Holding x silences work_u32.now work_f64.now }
    requires at_boundary { AtBoundary x k }
    ensures { result ≡ point_held x silences work_u32.now work_f64.now k }
{
    let n = x.padding.frames;
    let places = Layout { frames: n };
    let runs = places.runs_at();
    let side = places.side();
    point::point(
        x,
        &work_u32[..2 * silences],
        &work_u32[runs..runs + n],
        &work_f64[..side],
        k,
    )
}

// The own candidate of silence i.
fn own_in(x: Context, silences: usize, i: usize, work_u32: &[u32], work_f64: &[f64]) -> Candidate
    requires holding { Holding x silences work_u32.now work_f64.now }
    requires at_silence { AtSilence x silences work_u32.now work_f64.now i }
    ensures { result
        ≡ own_at x
        (silences_held silences work_u32.now)
        (levels_held x.padding.frames work_f64.now)
        i }
{
    let places = Layout {
        frames: x.padding.frames,
    };
    let side = places.side();
    own::own(x, &work_u32[..2 * silences], &work_f64[..side], i)
}

// The own candidate of silence i, if it is one of those before `stop`.
#[tactic(auto, unfolding(crate::specs::Collect::next_own))]
pub fn next_own(
    x: Context,
    silences: usize,
    stop: usize,
    i: usize,
    work_u32: &[u32],
    work_f64: &[f64],
) -> Option<Candidate>
    requires holding { Holding x silences work_u32.now work_f64.now }
    requires at_silence { i < stop → AtSilence x silences work_u32.now work_f64.now i }
    ensures { result ≡ next_own x silences stop work_u32.now work_f64.now i }
{
    if i < stop {
        Some(own_in(x, silences, i, work_u32, work_f64))
    } else {
        None
    }
}

// A silence's own candidate at boundary k, or the point there if one is marked and it is cheaper.
#[tactic(auto, unfolding(crate::specs::Collect::with_point))]
pub fn with_point(
    x: Context,
    silences: usize,
    k: usize,
    own: Candidate,
    marked: bool,
    work_u32: &[u32],
    work_f64: &[f64],
) -> Candidate
    requires holding { Holding x silences work_u32.now work_f64.now }
    requires at_boundary { AtBoundary x k }
    ensures { result
        ≡ with_point marked own (point_held x silences work_u32.now work_f64.now k) }
{
    if marked {
        candidate::cheaper(own, point_in(x, silences, k, work_u32, work_f64))
    } else {
        own
    }
}
