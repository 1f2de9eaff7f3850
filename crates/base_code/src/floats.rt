// Functions on floats, as Rust has them.
ghost use Rattle.std.specs.Prelude.{◌≡◌, false, T, pos, Float, is_nan};
ghost use Rattle.std.specs.Float.Ieee as Ieee;
ghost use Rattle.std.specs.Float.{fin};
ghost use Rattle.base_terms.specs.Floats.{min_of, max_of, clamp_of};
ghost use Rattle.base_terms.specs.Round.{half_away};

// A float of either width. At a type parameter std's `<=` goes through `partial_cmp`, which compares up to three times;
// these compare once.
pub trait Real: Copy {
    // Its value: a number, an infinity or the NaN.
    ghost value: { Self → Float };

    // Whether it is at most the other one. With a NaN nothing is compared.
    fn at_most(self, other: Self) -> bool
        ensures { result ≡ Ieee.le (value self) (value other) };

    // Whether it is below the other one.
    fn below(self, other: Self) -> bool
        ensures { result ≡ Ieee.lt (value self) (value other) };

    // Whether it is the NaN.
    fn no_number(self) -> bool
        ensures { result ≡ is_nan (value self) };
}

impl Real for f32 {
    ghost value = { λ x. x };

    fn at_most(self, other: f32) -> bool {
        self <= other
    }

    fn below(self, other: f32) -> bool {
        self < other
    }

    fn no_number(self) -> bool {
        self.is_nan()
    }
}

impl Real for f64 {
    ghost value = { λ x. x };

    fn at_most(self, other: f64) -> bool {
        self <= other
    }

    fn below(self, other: f64) -> bool {
        self < other
    }

    fn no_number(self) -> bool {
        self.is_nan()
    }
}

// The lesser of two, the first of equals. A NaN gives way to the other.
pub fn min<F: Real>(x: F, y: F) -> F
    ensures { F.value result ≡ min_of (F.value x) (F.value y) }
{
    if x.at_most(y) || y.no_number() { x } else { y }
}

// The greater of two, the first of equals. A NaN gives way to the other.
pub fn max<F: Real>(x: F, y: F) -> F
    ensures { F.value result ≡ max_of (F.value x) (F.value y) }
{
    if y.at_most(x) || y.no_number() { x } else { y }
}

// x raised to lo, and then lowered to hi.
pub fn clamp<F: Real>(x: F, lo: F, hi: F) -> F
    ensures { F.value result ≡ clamp_of (F.value x) (F.value lo) (F.value hi) }
{
    let raised = if x.below(lo) { lo } else { x };
    if hi.below(raised) { hi } else { raised }
}

// The nearest whole number, halves away from zero, of a value that is not negative. A double is exact, so nothing is
// rounded on the way.
pub fn round_half_away(x: f64) -> u64
    requires low { T (Ieee.le (fin false 0 (pos 0)) x) }
    requires high { T (Ieee.lt x (fin false 1 (pos 52))) }
    ensures { result ≡ half_away x }
{
    (std::num::truncating_f64_to_u64(x + x) + 1) / 2
}
