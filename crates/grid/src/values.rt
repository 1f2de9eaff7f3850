// Tests of the values, levels and flags of a recording. A NaN is outside every range.
ghost use Rattle.std.specs.Prelude.{◌≡◌, Bool};
ghost use Rattle.base_terms.specs.Lists.{all_of};
ghost use Rattle.grid.specs.Values.{is_score, is_finite};

// Whether every element passes. With `&` and no early exit it works on several elements at a time: almost every list
// that is lent passes.
pub fn every<T: Copy, F: Fn(T) -> bool>(list: &[T], test: F) -> bool
    requires { F.IsAlwaysCallable test }
    ensures { (p : T → Bool) → ((x : T) (r : Bool) → F.post test x r → r ≡ p x) → result ≡ all_of p list.now }
{
    list.iter().fold(true, |ok, x| ok & test(*x))
}

// Whether x is a score: within 0 to 1.
pub fn is_score(x: f32) -> bool
    ensures { result ≡ is_score x }
{
    0.0 <= x && x <= 1.0
}

// Whether x is finite.
pub fn is_finite_f32(x: f32) -> bool
    ensures { result ≡ is_finite x }
{
    x.is_finite()
}

// Whether x is finite.
pub fn is_finite_f64(x: f64) -> bool
    ensures { result ≡ is_finite x }
{
    x.is_finite()
}
