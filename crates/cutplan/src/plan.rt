// From a job to its listing.
ghost use Rattle.std.specs.Prelude.{◌≡◌, ◌≤◌, length};
ghost use Rattle.base_terms.specs.Lists.{onto};
ghost use Rattle.io.specs.Counts.{IsPrefixLen};
ghost use Rattle.job.specs.Job.{Within};
ghost use Rattle.cutplan.specs.Lines.{longest_listing, refusal_said};
ghost use Rattle.cutplan.specs.Cutplan.{cutplan_of, refused_in, printed, printed_into};
ghost use Rattle.cutplan.specs.Head.{lines_of_head, refused_of_head};

use crate::answer::Answered;
use crate::{answer, lists};
use grid::validate;
use job::answer::Head;
use job::{lists as held, read};

// No listing is longer.
pub const LONGEST_LISTING: usize = 53_702;

// The listing of a job that was read.
fn plan_read(job: &[u8], head: Head, out: &mut [u8]) -> Answered
    requires within { Within job.now head }
    requires longest_listing_in_bounds { longest_listing ≤ length out.old }
    ensures size_value { result.size ≡ length (lines_of_head job.now head) }
    ensures refused_value { result.refused ≡ refusal_said (refused_of_head job.now head) }
    ensures out_after { out.new ≡ onto (lines_of_head job.now head) out.old }
{
    let mut values = [0f32; read::MOST_FRAMES];
    let mut flags = [0u8; read::MOST_FRAMES];
    let mut levels = [0f64; read::MOST_FRAMES];
    held::put_values(job, head, &mut values);
    held::put_flags(job, head, &mut flags);
    held::put_levels(job, head, &mut levels);
    let frames = head.frames;
    let levelled = validate::level_count(head.recording.domain, frames);
    lists::plan_lists(
        head.recording,
        head.segment,
        head.settings,
        &values[..frames],
        &flags[..frames],
        &levels[..levelled],
        out,
    )
}

// Document 01's program `cutplan`, from bytes to bytes: writes the listing of a job to the front of `out`.
// No bytes are an empty recording (document 02, S-2), and to the reader they are a job that is cut short: so they
// are not handed on to it.
pub fn list_job(job: &[u8], out: &mut [u8]) -> Answered
    requires { longest_listing ≤ length out.old }
    ensures size_value { result.size ≡ length (cutplan_of job.now) }
    ensures refused_value { result.refused ≡ refusal_said (refused_in job.now) }
    ensures out_after { out.new ≡ onto (cutplan_of job.now) out.old }
{
    if job.len() == 0 {
        return answer::write_empty(out);
    }
    match read::read(job) {
        Ok(head) => plan_read(job, head, out),
        Err(refusal) => answer::write_number(u32::from(refusal.fault), out),
    }
}

// The same for a list of any length; answers how many bytes the listing has.
// Where `out` is shorter than some listings it stays as it was, and the answer is 0.
// `IsPrefixLen` lets a caller hand on the listing.
pub fn plan_job(job: &[u8], out: &mut [u8]) -> usize
    ensures out_after { printed result out.new ≡ printed_into job.now out.old }
    ensures prefix_len { IsPrefixLen result out.new }
{
    if out.len() < LONGEST_LISTING {
        return 0;
    }
    list_job(job, out).size
}
