// The levels of a recording: percentiles 10 and 99 of the frames with signal, and the thresholds of sound.
// Contracts cite specs/Levels; laws about its definitions stand in specs/LevelsLaws.
#![tactic(auto)]

pub mod keys;
pub mod percentile;
pub mod select;
pub mod signal;
pub mod threshold;

ghost use Rattle.std.specs.Prelude.{◌≡◌, true, map, length, ◌≤◌};
ghost use Rattle.base_terms.specs.Lists.{all_of};
ghost use Rattle.grid.specs.Limits.{max_frames};
ghost use Rattle.grid.specs.Values.{is_finite};
ghost use Rattle.silence_levels.specs.Keys.{value_of, is_key, keys_collected};
ghost use Rattle.silence_levels.specs.Threshold.{is_fixed};
ghost use Rattle.silence_levels.specs.Levels.{levels_over, levels_of, thresholds_of};

use grid::Readings;
use grid::validate::Domain;
use threshold::{Levels, Threshold, Thresholds};

// The levels of the values whose keys are given.
fn over_keys(domain: Domain, threshold: Threshold, keys: &[u32]) -> Levels
    requires keys_len_bound { length keys.now ≤ max_frames }
    requires keys_valid { all_of is_key keys.now ≡ true }
    ensures { result ≡ levels_over domain threshold (map value_of keys.now) }
{
    if keys.is_empty() {
        return threshold::no_signal();
    }
    let first = select::first_digits(keys);
    let floor = percentile::percentile(keys, &first, 10);
    let reference = percentile::percentile(keys, &first, 99);
    threshold::resolve(domain, threshold, floor, reference)
}

// The floor, the reference and the thresholds of a recording.
// The keys of the frames with signal are left in front of `keys`.
pub fn levels(domain: Domain, threshold: Threshold, readings: &Readings, keys: &mut [u32]) -> Levels
    requires values_len_bound { length readings.now.values.now ≤ max_frames }
    requires flags_len { length readings.now.flags.now ≡ length readings.now.values.now }
    requires values_in_bounds { length readings.now.values.now ≤ length keys.old }
    requires values_finite { all_of is_finite readings.now.values.now ≡ true }
    ensures result { result ≡ levels_of domain threshold readings.now.values.now readings.now.flags.now }
    ensures list { keys.new
        ≡ keys_collected readings.now.values.now readings.now.flags.now keys.old }
{
    let with_signal = keys::collect(readings, keys);
    over_keys(domain, threshold, &keys[..with_signal])
}

// Thresholds that are the same for all values, if any frame has signal.
fn fixed_thresholds(domain: Domain, threshold: Threshold, readings: &Readings) -> Thresholds
    requires threshold_fixed { is_fixed domain threshold ≡ true }
    requires flags_len { length readings.now.flags.now ≡ length readings.now.values.now }
    ensures { result ≡ thresholds_of domain threshold readings.now.values.now readings.now.flags.now }
{
    if !signal::any_signal(readings.flags) {
        return threshold::no_signal().into();
    }
    threshold::resolve(domain, threshold, 0.0, 0.0).into()
}

// The thresholds of a recording alone.
// No percentile is sought where they do not depend on it; else `keys` is overwritten.
pub fn thresholds(
    domain: Domain,
    threshold: Threshold,
    readings: &Readings,
    keys: &mut [u32],
) -> Thresholds
    requires values_len_bound { length readings.now.values.now ≤ max_frames }
    requires flags_len { length readings.now.flags.now ≡ length readings.now.values.now }
    requires values_in_bounds { length readings.now.values.now ≤ length keys.old }
    requires values_finite { all_of is_finite readings.now.values.now ≡ true }
    ensures { result ≡ thresholds_of domain threshold readings.now.values.now readings.now.flags.now }
{
    if threshold::is_fixed(domain, threshold) {
        return fixed_thresholds(domain, threshold, readings);
    }
    levels(domain, threshold, readings, keys).into()
}
