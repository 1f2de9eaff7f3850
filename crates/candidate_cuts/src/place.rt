// Where a silence that is longer than its padding is cut.
ghost use Rattle.std.specs.Prelude.{◌≡◌, true, ◌≤◌};
ghost use Rattle.grid.specs.Limits.{max_frames};
ghost use Rattle.grid.specs.Values.{is_score};
ghost use Rattle.candidate_cuts.specs.Place.{Placeable, share_of, chosen_by};

use base_code::floats;
use candidate_costs::quietest;
use plan_settings::config::Placement;

// This fraction of so many frames, as the nearest whole number.
fn share(ratio: f32, frames: usize) -> usize
    requires ratio_is_score { is_score ratio ≡ true }
    requires frames_le_max_frames { frames ≤ max_frames }
    ensures { result ≡ share_of ratio frames }
{
    floats::round_half_away((ratio as f64) * (frames as f64)) as usize
}

// The boundary from lo to hi, both inclusive, that the placement chooses.
pub fn place(placement: Placement, levels: &[f64], lo: usize, hi: usize) -> usize
    requires { Placeable placement levels.now lo hi }
    ensures { result ≡ chosen_by placement levels.now lo hi }
{
    match placement {
        Placement::Quietest => quietest::quietest(levels, lo, hi + 1),
        Placement::Center => (lo + hi) / 2,
        Placement::Ratio(ratio) => lo + share(ratio, hi - lo),
    }
}
