// What was measured of a recording's frames.
ghost use Rattle.std.specs.Prelude.{◌≡◌, ℕ, T, get_or};
ghost use Rattle.std.specs.Float.{nan, binary32, binary64};
ghost use Rattle.std.specs.Float.Ieee.{fits};

// The lists that are lent beside a recording's numbers: a value and a flag for each frame, and for decibels a level.
// The ghost fields are what the lists' types say of their elements: laws on levels and costs ask for it.
#[derive(Clone, Copy)]
pub struct Readings<'a> {
    pub values: &'a [f32],
    pub flags: &'a [u8],
    pub levels: &'a [f64],
    pub ghost values_fit: { (i : ℕ) → T (fits binary32 (get_or values.now i nan)) },
    pub ghost levels_fit: { (i : ℕ) → T (fits binary64 (get_or levels.now i nan)) },
}

impl<'a> Readings<'a> {
    // For who holds arrays that a call filled: of these a literal finds no ghost field, of lent slices it does.
    pub fn over(values: &'a [f32], flags: &'a [u8], levels: &'a [f64]) -> Readings<'a>
        ensures values_are { result.values.now ≡ values.now }
        ensures flags_are { result.flags.now ≡ flags.now }
        ensures levels_are { result.levels.now ≡ levels.now }
    {
        Readings {
            values,
            flags,
            levels,
        }
    }
}
