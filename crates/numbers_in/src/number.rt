// One number at a place, the lowest byte first. Bytes beyond the end are not there and count as 0, so that reading asks
// nothing of the place.
ghost use Rattle.std.specs.Prelude.{◌≡◌, ℕ, List, drop};
ghost use Rattle.numbers_in.specs.Numbers.{number_of, number_at, byte_at, u16_at, u32_at, u64_at, low, f32_at, f64_at};

use std::num;

// 2^56: below it a number has room for one more byte.
const SEVEN_BYTES: u64 = 72_057_594_037_927_936;

// A number that is read from bytes.
pub trait Number: Copy {
    // How many bytes it takes.
    const SIZE: usize;

    ghost SIZE: { ℕ };

    // The number at a place of some bytes.
    ghost read: { List ℕ → ℕ → Self };

    fn at(s: &[u8], at: usize) -> Self
        ensures { result ≡ read s.now at };
}

impl Number for u16 {
    const SIZE: usize = 2;

    ghost SIZE = { 2 };

    ghost read = { u16_at };

    fn at(s: &[u8], at: usize) -> u16 {
        (number_at(s, at, 2) % 65_536) as u16
    }
}

impl Number for u32 {
    const SIZE: usize = 4;

    ghost SIZE = { 4 };

    ghost read = { u32_at };

    // Where all four bytes are there, std reads them at once: that makes a list of floats fast to copy.
    fn at(s: &[u8], at: usize) -> u32 {
        match ahead(s, at).first_chunk::<4>() {
            Some(four) => u32::from_le_bytes(*four),
            None => narrow(number_at(s, at, 4)),
        }
    }
}

impl Number for u64 {
    const SIZE: usize = 8;

    ghost SIZE = { 8 };

    ghost read = { u64_at };

    // Where all eight bytes are there, std reads them at once.
    fn at(s: &[u8], at: usize) -> u64 {
        match ahead(s, at).first_chunk::<8>() {
            Some(eight) => u64::from_le_bytes(*eight),
            None => number_at(s, at, 8),
        }
    }
}

// A NaN's pattern, whichever, is read as the NaN.
impl Number for f32 {
    const SIZE: usize = u32::SIZE;

    ghost SIZE = { 4 };

    ghost read = { f32_at };

    fn at(s: &[u8], at: usize) -> f32 {
        num::f32_from_bits_with_nan(u32::at(s, at))
    }
}

// A NaN's pattern, whichever, is read as the NaN.
impl Number for f64 {
    const SIZE: usize = u64::SIZE;

    ghost SIZE = { 8 };

    ghost read = { f64_at };

    fn at(s: &[u8], at: usize) -> f64 {
        num::f64_from_bits_with_nan(u64::at(s, at))
    }
}

// The bytes from a place on, if any are there.
fn ahead(s: &[u8], at: usize) -> &[u8]
    ensures { result.now ≡ drop at s.now }
{
    s.get(at..).unwrap_or(&[])
}

// The number of all bytes.
fn number_of(s: &[u8]) -> u64
    ensures { result ≡ number_of s.now }
{
    s.iter()
        .rev()
        .fold(0, |w, b| w % SEVEN_BYTES * 256 + u64::from(*b))
}

// The number of so many bytes at a place.
fn number_at(s: &[u8], at: usize, size: usize) -> u64
    ensures { result ≡ number_at s.now at size }
{
    let rest = ahead(s, at);
    match rest.get(..size) {
        Some(part) => number_of(part),
        None => number_of(rest),
    }
}

// The low 32 bits.
pub fn narrow(w: u64) -> u32
    ensures { result ≡ low w }
{
    (w % 4_294_967_296) as u32
}

// The byte at a place.
pub fn byte_at(s: &[u8], at: usize) -> u8
    ensures { result ≡ byte_at s.now at }
{
    s.get(at).copied().unwrap_or(0)
}
