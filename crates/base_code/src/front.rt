// A list put at the front of another.
ghost use Rattle.std.specs.Prelude.{◌≡◌, ◌≤◌, length};
ghost use Rattle.base_terms.specs.Lists.{onto};

// Writes a list to the front of one that is not shorter. One element after another: of the slice's own copy the compiler
// makes a call of memmove, and the archive for C is to need no names from outside but memcpy and memset.
pub fn put_front<T: Copy>(list: &[T], out: &mut [T])
    requires { length list.now ≤ length out.old }
    ensures { out.new ≡ onto list.now out.old }
{
    for i in 0..list.len() {
        out[i] = list[i];
    }
}
