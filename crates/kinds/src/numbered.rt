// Kinds by their number, with the number that belongs to some of them, as the C interface and a job hand them over.
// A number that is no kind becomes one with a NaN beside it, which the tests refuse;
// a job that has such a number is refused for it before that.
ghost use Rattle.std.specs.Prelude.{◌≡◌};
ghost use Rattle.kinds.specs.Numbered.{threshold_of, placement_of};

use plan_settings::config::Placement;
use silence_levels::threshold::Threshold;

// The threshold of a kind and a level.
pub fn threshold_of(kind: u8, level: f32) -> Threshold
    ensures { result ≡ threshold_of kind level }
{
    match kind {
        0 => Threshold::Auto,
        1 => Threshold::Abs(level),
        2 => Threshold::BelowRef(level),
        _ => Threshold::Abs(f32::NAN),
    }
}

// The placement of a kind and a ratio.
pub fn placement_of(kind: u8, ratio: f32) -> Placement
    ensures { result ≡ placement_of kind ratio }
{
    match kind {
        0 => Placement::Quietest,
        1 => Placement::Center,
        2 => Placement::Ratio(ratio),
        _ => Placement::Ratio(f32::NAN),
    }
}
