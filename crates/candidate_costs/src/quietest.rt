// The quietest of neighbouring boundaries.
ghost use Rattle.std.specs.Prelude.{◌≡◌, ◌≤◌, ◌<◌, length};
ghost use Rattle.candidate_costs.specs.Quietest.{quieter, quietest_of};

// The quieter of two boundaries, the first where they are equally quiet.
#[tactic(auto, unfolding(crate::specs::Quietest::quieter))]
fn quieter(levels: &[f64], b: usize, k: usize) -> usize
    requires { (b < length levels.now) × (k < length levels.now) }
    ensures { result ≡ quieter levels.now b k }
{
    if levels[b] <= levels[k] { b } else { k }
}

// The quietest boundary of from..to, the first of equals.
pub fn quietest(levels: &[f64], from: usize, to: usize) -> usize
    requires { (from < to) × (to ≤ length levels.now) }
    ensures { result ≡ quietest_of levels.now from to }
{
    let mut best = from;
    for k in from + 1..to {
        best = quieter(levels, best, k);
    }
    best
}
