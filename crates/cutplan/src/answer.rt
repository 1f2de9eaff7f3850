// An answer of Plan, as the lines of its listing.
ghost use Rattle.std.specs.Prelude.{◌≡◌, ◌≤◌, None, Some, length};
ghost use Rattle.base_terms.specs.Lists.{onto};
ghost use Rattle.listing.specs.Listing.{plan_line, refusal_line, plan_line_room, refusal_room};
ghost use Rattle.plan_pieces.specs.Answer.{number_of};
ghost use Rattle.plan_pieces.specs.Output.{output_of};
ghost use Rattle.cutplan.specs.Lines.{longest_listing, lines_for, refusal_said};
ghost use Rattle.cutplan.specs.Roomy.{Roomy};

use listing::{line, write};
use plan_pieces::answer::Answer;

// How many bytes a listing has, and the number of the refusal that it says, none where it has a plan.
#[derive(Clone, Copy)]
pub struct Answered {
    pub size: usize,
    pub refused: Option<u32>,
}

// Writes the line of a refusal.
pub fn write_number(number: u32, out: &mut [u8]) -> Answered
    requires { refusal_room ≤ length out.old }
    ensures size_value { result.size ≡ length (refusal_line number) }
    ensures refused_value { result.refused ≡ Some number }
    ensures out_after { out.new ≡ onto (refusal_line number) out.old }
{
    Answered {
        size: write::write_refusal(number, out),
        refused: Some(number),
    }
}

// Writes the line of a plan without pieces.
pub fn write_empty(out: &mut [u8]) -> Answered
    requires { plan_line_room ≤ length out.old }
    ensures size_value { result.size ≡ length (plan_line 0 0) }
    ensures refused_value { result.refused ≡ None }
    ensures out_after { out.new ≡ onto (plan_line 0 0) out.old }
{
    Answered {
        size: line::put_plan(0, 0, 0, out),
        refused: None,
    }
}

// Writes the lines of a plan, or that of its refusal.
pub fn write_answer(answer: Answer, pieces: &[u64], cuts: &[u64], out: &mut [u8]) -> Answered
    requires roomy { Roomy answer (length pieces.now) (length cuts.now) }
    requires longest_listing_in_bounds { longest_listing ≤ length out.old }
    ensures size_value { result.size ≡ length (lines_for answer (output_of pieces.now cuts.now)) }
    ensures refused_value { result.refused ≡ refusal_said (number_of answer) }
    ensures out_after { out.new
        ≡ onto (lines_for answer (output_of pieces.now cuts.now)) out.old }
{
    match answer {
        Ok(n) => {
            let size = write::write_plan(n, pieces, cuts, out);
            Answered {
                size,
                refused: None,
            }
        }
        Err(error) => write_number(u32::from(error), out),
    }
}
