// One job from standard input, its listing to standard output.
ghost use Rattle.std.specs.Prelude.{◌≤◌, ◌<◌, ◌≡◌, length};
ghost use Rattle.base_terms.specs.Lists.{onto};
ghost use Rattle.io.specs.Counts.{IsPrefixLen};
ghost use Rattle.job.specs.Limits.{most_bytes};
ghost use Rattle.cutplan.specs.Lines.{longest_listing, refusal_said};
ghost use Rattle.input_reader.specs.Input.{FitsIn};
ghost use Rattle.cutplan_program.specs.Program.{printed_after, refused_after, Ran};

use cutplan::answer::Answered;
use cutplan::plan::LONGEST_LISTING;
use cutplan::{answer, plan};
use input_reader::input;
use std::io::{Error, Stdin};

// One byte more than a job can have, so that a longer one is seen and not cut.
const INPUT: usize = 8_193;

// The number of standard output.
const STDOUT: i32 = 1;

// The listing for what was read; a read that failed is refused as bytes that are no job are. `IsPrefixLen` lets the caller
// hand on the listing.
fn list_input(got: Result<usize, Error>, job: &[u8], out: &mut [u8]) -> Answered
    requires fits_in { FitsIn got (length job.now) }
    requires most_bytes_in_bounds { most_bytes < length job.now }
    requires longest_listing_in_bounds { longest_listing ≤ length out.old }
    ensures refused_value { result.refused ≡ refusal_said (refused_after got job.now) }
    ensures size_value { result.size ≡ length (printed_after got job.now) }
    ensures out_after { out.new ≡ onto (printed_after got job.now) out.old }
    ensures prefix_len { IsPrefixLen result.size out.new }
{
    match got {
        Ok(n) => plan::list_job(&job[..n], out),
        Err(_) => answer::write_number(19, out),
    }
}

// The program's status: 0, or 1 where the listing was not written whole.
// `refused` is then the number of the refusal that the listing says, 0 where it has a plan.
// `stdin`, the leave to read standard input, takes no bytes, so C passes nothing for it.
#[unsafe(no_mangle)]
pub extern "C" fn buchawzer_cutplan_program(refused: &mut u32, mut stdin: Stdin) -> i32
    ensures { Ran result refused.new }
{
    let mut job = [0u8; INPUT];
    let mut out = [0u8; LONGEST_LISTING];
    let got = input::read_to_end(&mut stdin, &mut job);
    let listed = list_input(got, &job, &mut out);
    *refused = listed.refused.unwrap_or(0);
    if io::write_all(STDOUT, &out[..listed.size]) {
        return 0;
    }
    1
}
