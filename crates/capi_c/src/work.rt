// The export of clearing work memory by itself.
ghost use Rattle.std.specs.Prelude.{◌≡◌};
ghost use Rattle.base_terms.specs.Work.{work_of, cleared};

use capi::work;

#[unsafe(no_mangle)]
pub extern "C" fn buchawzer_clear_work(
    work_u32: &mut [u32],
    work_u64: &mut [u64],
    work_f64: &mut [f64],
)
    ensures { work_of work_u32.new work_u64.new work_f64.new
        ≡ cleared (work_of work_u32.old work_u64.old work_f64.old) }
{
    work::buchawzer_clear_work(work_u32, work_u64, work_f64);
}
