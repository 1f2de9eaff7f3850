// The three work lists of an operation: whether they are long enough, and clearing them whole.
ghost use Rattle.std.specs.Prelude.{◌≡◌};
ghost use Rattle.base_terms.specs.Work.{work_of, cleared, work_ok};

// Test 13: the lengths of the three lists, for n = frames + 1 or the number of candidates. Divided, so that no product
// is too large for any n.
pub fn work_ok(n: usize, n32: usize, n64: usize, nf: usize) -> bool
    ensures { result ≡ work_ok n n32 n64 nf }
{
    n <= n32 / 16 && n <= n64 / 16 && n <= nf / 16
}

// Clears the three lists whole.
pub fn clear_work(work_u32: &mut [u32], work_u64: &mut [u64], work_f64: &mut [f64])
    ensures { work_of work_u32.new work_u64.new work_f64.new
        ≡ cleared (work_of work_u32.old work_u64.old work_f64.old) }
{
    work_u32.fill(0);
    work_u64.fill(0);
    work_f64.fill(0.0);
}
