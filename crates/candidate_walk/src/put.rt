// Writing a candidate down in work memory.
ghost use Rattle.std.specs.Prelude.{◌≡◌, [], ◌∷◌, ◌+◌, ◌*◌};
ghost use Rattle.base_terms.specs.Layout.{entries_at, costs_at};
ghost use Rattle.candidate_points.specs.Placed.{placed};
ghost use Rattle.candidates.specs.Entries.{entries_of, costs_of};
ghost use Rattle.candidate_walk.specs.HeldLaws.{Puttable};

use base_code::layout::Layout;
use candidates::candidate::Candidate;

// Candidate number `at` of a recording of so many frames.
pub fn put(c: Candidate, at: usize, frames: usize, work_u32: &mut [u32], work_f64: &mut [f64])
    requires { Puttable c at frames work_u32.old work_f64.old }
    ensures work_u32_after { work_u32.new
        ≡ placed (entries_at frames + 3 * at) (entries_of (c ∷ [])) work_u32.old }
    ensures work_f64_after { work_f64.new
        ≡ placed (costs_at frames + at) (costs_of (c ∷ [])) work_f64.old }
{
    let places = Layout { frames };
    let here = places.entries_at() + 3 * at;
    let price = places.costs_at() + at;
    work_u32[here] = c.left as u32;
    work_u32[here + 1] = c.right as u32;
    work_u32[here + 2] = u32::from(c.reason);
    work_f64[price] = c.cost;
}
