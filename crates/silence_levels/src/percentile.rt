// Percentiles of frame values, from their keys.
ghost use Rattle.std.specs.Prelude.{◌≡◌, true, map, length, ◌≤◌, ◌<◌};
ghost use Rattle.base_terms.specs.Lists.{all_of};
ghost use Rattle.grid.specs.Limits.{max_frames};
ghost use Rattle.silence_levels.specs.Keys.{is_key, value_of};
ghost use Rattle.silence_levels.specs.Select.{counts_of};
ghost use Rattle.silence_levels.specs.Percentile.{percentile_index, percentile_of};

use crate::{keys, select};

// Rounded percentile index.
#[tactic(auto, unfolding(crate::specs::Percentile::percentile_index))]
fn percentile_index(len: usize, percentile: usize) -> usize
    requires len_nonzero { 0 < len }
    requires len_le_max_frames { len ≤ max_frames }
    requires percentile_bound { percentile ≤ 100 }
    ensures { result ≡ percentile_index len percentile }
{
    (percentile * (len - 1) + 50) / 100
}

// The value at a percentile of those whose keys are given, with the table of the keys' first digits.
pub fn percentile(keys: &[u32], first: &[usize; 2048], p: usize) -> f32
    requires keys_nonzero { 0 < length keys.now }
    requires keys_len_bound { length keys.now ≤ max_frames }
    requires p_bound { p ≤ 100 }
    requires keys_valid { all_of is_key keys.now ≡ true }
    requires first_value { first.now ≡ counts_of keys.now 22 0 }
    ensures { result ≡ percentile_of (map value_of keys.now) p }
{
    let rank = percentile_index(keys.len(), p);
    keys::value_of(select::select(keys, first, rank))
}
