// The lent costs copied into work memory: two parts of one list cannot be lent at once, so the search has scores and
// cuts in one list. By `put_front` and not by the slice's own copy, of which the compiler makes a call of memmove.
ghost use Rattle.std.specs.Prelude.{◌≡◌, length};

use base_code::front;

// Copies a list over one of the same length.
pub fn copy_f64(from: &[f64], to: &mut [f64])
    requires { length to.old ≡ length from.now }
    ensures { to.new ≡ from.now }
{
    front::put_front(from, to);
}
