// Replays a stored sample of jobs with the listings of the Rust's plans, which stands on standard input, and prints how
// many records agree and how many differ.
// What a record holds is said in record.rt.
#![tactic(auto)]

mod record;
mod report;

ghost use Rattle.std.specs.Prelude.{◌≡◌};
ghost use Rattle.answers_jobs.specs.Tally.{tally_of};

use crate::report::Tally;

// Goes through all records.
fn replay_all(s: &[u8]) -> Tally
    ensures { result ≡ tally_of s.now }
{
    if report::MOST < s.len() {
        return report::too_long();
    }
    let mut tally = report::nothing();
    let mut at: usize = 0;
    // How far a turn goes is what the record says.
    while at < s.len() {
        let replayed = record::replay(&s[at..]);
        at += replayed.size;
        tally = report::with_record(tally, replayed.same);
    }
    tally
}

// The number of records is part of the line, so that a sample that was not read is no success. Each part is written by
// itself, and where one can't be written the next is tried.
fn print(rt: &impl Print, tally: Tally) {
    let _ = rt.print("jobs: ");
    let _ = rt.print(tally.records);
    let _ = rt.print(" stored answers, the first ");
    let _ = rt.print(tally.agreeing);
    let _ = rt.print(" agree, ");
    let _ = rt.print(tally.differences);
    let _ = rt.print(" differ\n");
}

// Reads the sample, and prints one line. What came before a read that failed is replayed. The status is 0, also where the
// line can't be written.
fn main(rt: HostRuntime) {
    let mut buf = [0u8; report::MOST + 1];
    let n = io::read_full(0, &mut buf);
    print(&rt, replay_all(&buf[..n]));
}
