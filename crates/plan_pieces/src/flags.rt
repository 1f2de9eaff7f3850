// What is said of a piece's length.
ghost use Rattle.std.specs.Prelude.{◌≡◌, false, ◌≤◌};
ghost use Rattle.base_terms.specs.Limits.{max_len};
ghost use Rattle.plan_pieces.specs.Flags.{is_tail, short_flag, long_flag, flags_of};

// Piece i of so many is the last of several: a remainder, which is never short.
pub fn is_tail(i: usize, pieces: usize) -> bool
    ensures { result ≡ is_tail pieces i }
{
    let several = 1 < pieces;
    several && i == pieces - 1
}

// 1 for a piece that is below the minimum. The minimum is a float, and so the length is compared as one.
fn short_flag(len: u64, min: f64) -> u64
    requires { len ≤ max_len }
    ensures { result ≡ short_flag false min len }
{
    u64::from((len as f64) < min)
}

// 2 for a piece that is longer than the maximum.
fn long_flag(len: u64, max: u64) -> u64
    ensures { result ≡ long_flag max len }
{
    2 * u64::from(max < len)
}

// Both as one number, as the C interface has it.
pub fn flags_of(len: u64, tail: bool, min: f64, max: u64) -> u64
    requires { len ≤ max_len }
    ensures { result ≡ flags_of tail min max len }
{
    let long = long_flag(len, max);
    if tail {
        return long;
    }
    short_flag(len, min) + long
}
