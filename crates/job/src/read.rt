// From bytes to a job, with the tests of refusal 19 in the order of reading.
ghost use Rattle.std.specs.Prelude.{◌≡◌, ◌≤◌, IfOk};
ghost use Rattle.job.specs.Fields.{refused};
ghost use Rattle.job.specs.Limits.{most_frames};
ghost use Rattle.job.specs.Job.{lists_size, numbers_of, fitted, read_of};

use crate::answer::{Fault, Head, Refusal};
use crate::fields::Fields;
use crate::{recording, segment, settings};
use grid::validate::Domain;
use numbers_in::number::Number;

// A job has at most so many bytes.
pub const MOST_BYTES: usize = 8192;

// A job has at most so many frames.
pub const MOST_FRAMES: usize = 511;

// Settings, segment settings and recording, one behind another.
fn numbers_of(job: &[u8], map: u16) -> Result<Head, Refusal>
    ensures lists_low { IfOk result (λ head. 4 ≤ head.lists) }
    ensures lists_high { IfOk result (λ head. head.lists ≤ 148) }
    ensures value { result ≡ numbers_of job.now map }
{
    let mut fields = Fields { job, map, at: 2 };
    let settings = settings::settings_at(&mut fields)?;
    let segment = segment::segment_at(&mut fields)?;
    let recorded = recording::recorded_at(&mut fields)?;
    Ok(Head {
        recording: recorded.recording,
        segment,
        settings,
        frames: recorded.frames as usize,
        lists: fields.at,
    })
}

// How many bytes the lists take.
fn lists_size(domain: Domain, frames: usize) -> usize
    requires { frames ≤ most_frames }
    ensures upper_bound { result ≤ 6643 }
    ensures value { result ≡ lists_size domain frames }
{
    match domain {
        Domain::Decibels => 13 * frames,
        Domain::Scores => 4 * frames,
    }
}

// Bytes that are no job, for this fault, which shows at this place.
fn refused(fault: Fault, at: usize) -> Result<Head, Refusal>
    ensures { result ≡ refused fault at }
{
    Err(Refusal { fault, at })
}

// The tests of a job's length, with the numbers before its lists read.
fn fit(len: usize, head: Head) -> Result<Head, Refusal>
    requires lists_low { 4 ≤ head.lists }
    requires lists_high { head.lists ≤ 148 }
    ensures { result ≡ fitted len head }
{
    if len < head.lists {
        return refused(Fault::CutShort, len);
    }
    if MOST_FRAMES < head.frames {
        return refused(Fault::TooManyFrames, head.lists - 4);
    }
    let end = head.lists + lists_size(head.recording.domain, head.frames);
    if len < end {
        return refused(Fault::CutShort, len);
    }
    if end < len {
        return refused(Fault::BytesAfter, end);
    }
    Ok(head)
}

// The job that bytes say, or the first reason why they say none.
pub fn read(job: &[u8]) -> Result<Head, Refusal>
    ensures { result ≡ read_of job.now }
{
    if MOST_BYTES < job.len() {
        return refused(Fault::TooLong, MOST_BYTES);
    }
    let map = u16::at(job, 0);
    if 4096 <= map {
        return refused(Fault::UnknownBit, 0);
    }
    let head = numbers_of(job, map)?;
    fit(job.len(), head)
}
