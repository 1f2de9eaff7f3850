// The export of the program `cutplan` over bytes.
ghost use Rattle.std.specs.Prelude.{◌≡◌};
ghost use Rattle.cutplan.specs.Cutplan.{printed, printed_into};

use capi::jobs;

#[unsafe(no_mangle)]
pub extern "C" fn buchawzer_cutplan(job: &[u8], listing: &mut [u8]) -> u64
    ensures { printed result listing.new ≡ printed_into job.now listing.old }
{
    jobs::buchawzer_cutplan(job, listing)
}
