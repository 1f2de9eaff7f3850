// A key for each frame value: keys stand in the order of `f32::total_cmp`.
ghost use Rattle.std.specs.Prelude.{◌≡◌, true, not, T, length, ◌≤◌};
ghost use Rattle.std.specs.Float.Ieee.{is_nan};
ghost use Rattle.base_terms.specs.Lists.{all_of};
ghost use Rattle.grid.specs.Values.{is_finite};
ghost use Rattle.silence_levels.specs.Keys.{key_of, value_of, Collected};

use grid::Readings;

// The key of x. Patterns with the sign clear come after all others; among those with it set the larger pattern comes
// first.
#[tactic(auto, unfolding(crate::specs::Keys::key_of, crate::specs::Keys::place_of))]
fn key_of(x: f32) -> u32
    requires { T (not (is_nan x)) }
    ensures { result ≡ key_of x }
{
    let bits = x.to_bits();
    if bits < 2_147_483_648 {
        bits + 2_147_483_648
    } else {
        4_294_967_295 - bits
    }
}

// The value whose key is k.
pub fn value_of(k: u32) -> f32
    requires { T (not (is_nan (value_of k))) }
    ensures { result ≡ value_of k }
{
    if k < 2_147_483_648 {
        f32::from_bits(4_294_967_295 - k)
    } else {
        f32::from_bits(k - 2_147_483_648)
    }
}

// Writes the keys of the frames with signal to the front of `keys`, in order. Returns how many there are.
pub fn collect(readings: &Readings, keys: &mut [u32]) -> usize
    requires flags_len { length readings.now.flags.now ≡ length readings.now.values.now }
    requires values_in_bounds { length readings.now.values.now ≤ length keys.old }
    requires values_finite { all_of is_finite readings.now.values.now ≡ true }
    ensures { Collected readings.now.values.now readings.now.flags.now keys.old keys.new result }
{
    let mut n = 0;
    for (value, flag) in readings.values.iter().zip(readings.flags) {
        if *flag == 0 {
            keys[n] = key_of(*value);
            n += 1;
        }
    }
    n
}
