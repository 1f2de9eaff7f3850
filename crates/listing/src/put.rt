// Words and numbers, written from a place of a list on. Each function answers the place behind what it wrote.
ghost use Rattle.std.specs.Prelude.{◌≡◌, length};
ghost use Rattle.listing.specs.Text.{decimal_of};
ghost use Rattle.listing.specs.Listing.{flags_word, reason_word};
ghost use Rattle.listing.specs.Written.{Room, Written};

// A text.
pub fn put_text(text: &[u8], at: usize, out: &mut [u8]) -> usize
    requires { Room (length text.now) out.old at }
    ensures { Written text.now out.old at out.new result }
{
    let end = at + text.len();
    out[at..end].copy_from_slice(text);
    end
}

// A number in decimal: one of 64 bits has 20 digits at most.
pub fn put_number(n: u64, at: usize, out: &mut [u8]) -> usize
    requires { Room (length (decimal_of n)) out.old at }
    ensures { Written (decimal_of n) out.old at out.new result }
{
    let mut digits = [0u8; 20];
    let k = io::decimal(n, &mut digits);
    put_text(&digits[..k], at, out)
}

// A piece's flags: none, short, long or both.
fn flags_word(flags: u64) -> &'static [u8]
    ensures { result.now ≡ flags_word flags }
{
    match flags {
        0 => b"-",
        1 => b"s",
        2 => b"l",
        _ => b"sl",
    }
}

// A cut's reason: silence, quiet or forced.
fn reason_word(reason: u64) -> &'static [u8]
    ensures { result.now ≡ reason_word reason }
{
    match reason {
        0 => b"silence",
        1 => b"quiet",
        _ => b"forced",
    }
}

// The word of a piece's flags.
pub fn put_flags(flags: u64, at: usize, out: &mut [u8]) -> usize
    requires { Room (length (flags_word flags)) out.old at }
    ensures { Written (flags_word flags) out.old at out.new result }
{
    put_text(flags_word(flags), at, out)
}

// The word of a cut's reason.
pub fn put_reason(reason: u64, at: usize, out: &mut [u8]) -> usize
    requires { Room (length (reason_word reason)) out.old at }
    ensures { Written (reason_word reason) out.old at out.new result }
{
    put_text(reason_word(reason), at, out)
}
