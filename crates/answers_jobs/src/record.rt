// One record: the length of a job (16 bits), the job, the length of its listing (16 bits), the listing. Numbers are
// little-endian, with nothing between the parts.
ghost use Rattle.std.specs.Prelude.{◌≡◌, ◌≤◌, ◌<◌, length};
ghost use Rattle.answers_jobs.specs.Record.{same_bytes, broken_off, replayed_of};
ghost use Rattle.cutplan.specs.Cutplan.{cutplan_of};

use cutplan::plan;
use cutplan::plan::LONGEST_LISTING;
use numbers_in::number::Number;

// What came of a record: the number of bytes that were read, and whether the port's answer is the stored one.
#[derive(Clone, Copy)]
pub struct Replayed {
    pub size: usize,
    pub same: bool,
}

// What is left, where it is no whole record. It agrees with nothing.
fn broken(s: &[u8]) -> Replayed
    requires { 0 < length s.now }
    ensures size_nonzero { 0 < result.size }
    ensures size_in_bounds { result.size ≤ length s.now }
    ensures value { result ≡ broken_off s.now }
{
    Replayed {
        size: s.len(),
        same: false,
    }
}

// The port's listing of a job is the stored one.
fn agrees(job: &[u8], listing: &[u8]) -> bool
    ensures { result ≡ same_bytes (cutplan_of job.now) listing.now }
{
    let mut out = [0u8; LONGEST_LISTING];
    let n = plan::plan_job(job, &mut out);
    &out[..n] == listing
}

// The record at the front of s, or what is left where that is no whole record.
pub fn replay(s: &[u8]) -> Replayed
    requires { 0 < length s.now }
    ensures size_nonzero { 0 < result.size }
    ensures size_in_bounds { result.size ≤ length s.now }
    ensures value { result ≡ replayed_of s.now }
{
    let job = u16::at(s, 0) as usize;
    if s.len() < job + 4 {
        return broken(s);
    }
    let listing = u16::at(s, job + 2) as usize;
    if s.len() - job - 4 < listing {
        return broken(s);
    }
    let end = job + 4 + listing;
    Replayed {
        size: end,
        same: agrees(&s[2..job + 2], &s[job + 4..end]),
    }
}
