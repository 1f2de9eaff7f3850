// Lists of numbers one behind another, copied to where an operation can read them: to the first n places of a list,
// from a place of the bytes on.
ghost use Rattle.std.specs.Prelude.{◌≡◌, ◌+◌, ◌*◌, ◌≤◌, length, replicate};
ghost use Rattle.base_terms.specs.Lists.{onto, tabulate};
ghost use Rattle.numbers_in.specs.Numbers.{byte_at};

use crate::number::Number;

// So many zeros, where the bytes have none to copy.
pub fn put_zeros(n: usize, list: &mut [u8])
    requires { n ≤ length list.old }
    ensures { list.new ≡ onto (replicate n 0) list.old }
{
    list[..n].fill(0);
}

// Bytes, each in one place: the slice's own copy, where `copy` below would read each byte as a number.
pub fn copy_bytes(s: &[u8], at: usize, n: usize, list: &mut [u8])
    requires s_in_bounds { at + n ≤ length s.now }
    requires list_in_bounds { n ≤ length list.old }
    ensures { list.new
        ≡ onto (tabulate (λ i. byte_at s.now (at + i)) n) list.old }
{
    list[..n].copy_from_slice(&s[at..at + n]);
}

// Numbers, each in as many bytes as one takes.
pub fn copy<T: Number>(s: &[u8], at: usize, n: usize, list: &mut [T])
    requires s_in_bounds { at + T.SIZE * n ≤ length s.now }
    requires list_in_bounds { n ≤ length list.old }
    ensures { list.new
        ≡ onto (tabulate (λ i. T.read s.now (at + T.SIZE * i)) n) list.old }
{
    for (i, x) in list[..n].iter_mut().enumerate() {
        *x = T::at(s, at + T::SIZE * i);
    }
}
