// Kinds by a flag. The C interface and a job hand the flags over, so each kind is made of one, and named after what it says.
ghost use Rattle.std.specs.Prelude.{◌≡◌};
ghost use Rattle.kinds.specs.Flagged.{domain_of, gap_of, mode_of};

use grid::validate::Domain;
use path_pieces::mode::Mode;
use plan_settings::config::Gap;

// Decibels, or scores.
pub fn domain_of(decibels: bool) -> Domain
    ensures { result ≡ domain_of decibels }
{
    if decibels {
        Domain::Decibels
    } else {
        Domain::Scores
    }
}

// Whether gaps are dropped.
pub fn gap_of(drop_gaps: bool) -> Gap
    ensures { result ≡ gap_of drop_gaps }
{
    if drop_gaps { Gap::Drop } else { Gap::Keep }
}

// By length, or by this count.
pub fn mode_of(by_count: bool, count: u32) -> Mode
    ensures { result ≡ mode_of by_count count }
{
    if by_count {
        Mode::ByCount(count)
    } else {
        Mode::ByLength
    }
}
