// Tests of a recording's flags, eight bytes at a time: words are laid over each other, and what lies there is tested
// once. The bytes that fill no word are tested singly. No loop has an early exit: almost every list that is lent passes.
ghost use Rattle.std.specs.Prelude.{◌≡◌};
ghost use Rattle.base_terms.specs.Lists.{all_of};
ghost use Rattle.grid.specs.Values.{is_flag, is_unflagged};
ghost use Rattle.grid.specs.Words.{is_clear};

use crate::values;

// The bits that neither 0 nor 1 has.
const ABOVE_ONE: u8 = 0xfe;

// The bits that 0 does not have.
const ABOVE_ZERO: u8 = 0xff;

// A 1 at each byte: a byte times this stands at each of them.
const AT_EACH: u64 = 0x0101_0101_0101_0101;

// Whether a word, or a byte, has no bit of the mask.
fn is_clear(word: u64, mask: u64) -> bool
    ensures { result ≡ is_clear mask word }
{
    word & mask == 0
}

// Whether no byte has a bit of the mask.
fn are_clear(bytes: &[u8], mask: u8) -> bool
    ensures { result ≡ all_of (is_clear mask) bytes.now }
{
    let (words, rest) = bytes.as_chunks::<8>();
    let seen = words
        .iter()
        .fold(0, |seen, word| seen | u64::from_le_bytes(*word));
    is_clear(seen, mask as u64 * AT_EACH)
        & values::every(rest, |b: u8| is_clear(b as u64, mask as u64))
}

// Whether each flag byte is 0 or 1.
pub fn are_flags(flags: &[u8]) -> bool
    ensures { result ≡ all_of is_flag flags.now }
{
    are_clear(flags, ABOVE_ONE)
}

// Whether each flag byte is 0, as in a recording of scores.
pub fn are_unflagged(flags: &[u8]) -> bool
    ensures { result ≡ all_of is_unflagged flags.now }
{
    are_clear(flags, ABOVE_ZERO)
}
