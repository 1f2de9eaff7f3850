// The lists of a job that was read, put where Plan can take them: at the front of lists with an entry for each frame.
ghost use Rattle.std.specs.Prelude.{◌≡◌, ◌≤◌, length};
ghost use Rattle.base_terms.specs.Lists.{onto};
ghost use Rattle.job.specs.Job.{values_in, flags_in, levels_in, Within};

use crate::answer::Head;
use grid::validate::Domain;
use numbers_in::lists;

// A value for each frame.
pub fn put_values(job: &[u8], head: Head, values: &mut [f32])
    requires within { Within job.now head }
    requires frames_in_bounds { head.frames ≤ length values.old }
    ensures { values.new ≡ onto (values_in job.now head) values.old }
{
    lists::copy(job, head.lists, head.frames, values);
}

// No frame of scores has a flag.
pub fn put_flags(job: &[u8], head: Head, flags: &mut [u8])
    requires within { Within job.now head }
    requires frames_in_bounds { head.frames ≤ length flags.old }
    ensures { flags.new ≡ onto (flags_in job.now head) flags.old }
{
    match head.recording.domain {
        Domain::Decibels => lists::copy_bytes(
            job,
            head.lists + 4 * head.frames,
            head.frames,
            flags,
        ),
        Domain::Scores => lists::put_zeros(head.frames, flags),
    }
}

// Scores have no levels, and the list stays as it was.
pub fn put_levels(job: &[u8], head: Head, levels: &mut [f64])
    requires within { Within job.now head }
    requires frames_in_bounds { head.frames ≤ length levels.old }
    ensures { levels.new ≡ onto (levels_in job.now head) levels.old }
{
    match head.recording.domain {
        Domain::Decibels => lists::copy(job, head.lists + 5 * head.frames, head.frames, levels),
        Domain::Scores => {}
    }
}
