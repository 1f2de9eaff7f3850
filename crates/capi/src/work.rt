// Clearing work memory by itself, as every operation does it at its end: for the benchmark.
ghost use Rattle.std.specs.Prelude.{◌≡◌};
ghost use Rattle.base_terms.specs.Work.{work_of, cleared};

// Every entry becomes zero.
pub fn buchawzer_clear_work(work_u32: &mut [u32], work_u64: &mut [u64], work_f64: &mut [f64])
    ensures { work_of work_u32.new work_u64.new work_f64.new
        ≡ cleared (work_of work_u32.old work_u64.old work_f64.old) }
{
    base_code::work::clear_work(work_u32, work_u64, work_f64);
}
