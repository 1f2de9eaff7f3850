// The program `cutplan` over bytes.
ghost use Rattle.std.specs.Prelude.{◌≡◌};
ghost use Rattle.cutplan.specs.Cutplan.{printed, printed_into};

use cutplan::plan;

// Writes the listing that `cutplan` prints for a job to the front of `listing`, and answers how many bytes it has.
// A job of 0 bytes is an empty recording (document 02, S-2).
// Where `listing` has fewer than 53,702 bytes, the longest that a listing can be, nothing is written
// and the answer is 0.
pub fn buchawzer_cutplan(job: &[u8], listing: &mut [u8]) -> u64
    ensures { printed result listing.new ≡ printed_into job.now listing.old }
{
    plan::plan_job(job, listing) as u64
}
