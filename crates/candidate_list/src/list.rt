// The operation itself.
ghost use Rattle.std.specs.Prelude.{◌≡◌, ◌*◌, true, length, take, drop};
ghost use Rattle.base_terms.specs.Layout.{entries_at, costs_at};
ghost use Rattle.base_terms.specs.Lists.{onto};
ghost use Rattle.base_terms.specs.Work.{work_of};
ghost use Rattle.plan_tests.specs.Fitting.{Fitting};
ghost use Rattle.candidate_list.specs.CandidateList.{output_of, end_of, has_room, handed_out_of};
ghost use Rattle.candidate_list.specs.CandidateList.{candidate_list_of, error_number};
ghost use Rattle.candidate_list.specs.CandidateListLaws.{Copyable};
ghost use Rattle.candidate_list.specs.declared.list.Error.TheVariants.{Refused};

use base_code::layout::Layout;
use base_code::{front, work};
use candidate_finder::finder;
use grid::Readings;
use grid::validate::Recording;
use plan_settings::config::PlanConfig;
use plan_tests::refusal;
use plan_tests::refusal::Refusal;
use silence_list::config::SegmentConfig;

// Why the operation writes no candidates.
#[derive(Clone, Copy, Debug, PartialEq, Eq)]
pub enum Error {
    Refused(Refusal),
    ShortOutput,
}

// A test that fails is why.
impl From<Refusal> for Error {
    ghost from_gives = { λ r e. e ≡ Refused r };

    fn from(r: Refusal) -> Error {
        Error::Refused(r)
    }
}

// Document 01's number for each case.
impl From<Error> for u32 {
    ghost from_gives = { λ e n. n ≡ error_number e };

    fn from(e: Error) -> u32 {
        match e {
            Error::Refused(r) => u32::from(r),
            Error::ShortOutput => 12,
        }
    }
}

// What the operation answers: how many candidates it wrote, or why it wrote none.
pub type Answer = Result<usize, Error>;

// Test 12 for so many candidates: a cost and three numbers each.
fn has_room(candidates: usize, ends: usize, costs: usize) -> bool
    ensures { result ≡ has_room candidates ends costs }
{
    candidates <= costs && candidates <= ends / 3
}

// Copies the candidates from work memory to the front of both outputs.
fn copy_out(
    frames: usize,
    candidates: usize,
    work_u32: &[u32],
    work_f64: &[f64],
    ends: &mut [u32],
    costs: &mut [f64],
)
    requires copyable { Copyable frames candidates work_u32.now work_f64.now }
    requires room { has_room candidates (length ends.old) (length costs.old) ≡ true }
    ensures ends_after { ends.new
        ≡ onto (take (3 * candidates) (drop (entries_at frames) work_u32.now)) ends.old }
    ensures costs_after { costs.new
        ≡ onto (take candidates (drop (costs_at frames) work_f64.now)) costs.old }
{
    let places = Layout { frames };
    let entries = places.entries_at();
    front::put_front(&work_u32[entries..entries + 3 * candidates], ends);
    let prices = places.costs_at();
    front::put_front(&work_f64[prices..prices + candidates], costs);
}

// Hands out the candidates that stand in work memory, and clears it.
fn hand_out(
    frames: usize,
    candidates: usize,
    work_u32: &mut [u32],
    work_u64: &mut [u64],
    work_f64: &mut [f64],
    ends: &mut [u32],
    costs: &mut [f64],
) -> Answer
    requires { Copyable frames candidates work_u32.old work_f64.old }
    ensures { end_of result (output_of ends.new costs.new)
        (work_of work_u32.new work_u64.new work_f64.new)
        ≡ handed_out_of candidates
        (take (3 * candidates) (drop (entries_at frames) work_u32.old))
        (take candidates (drop (costs_at frames) work_f64.old))
        (output_of ends.old costs.old)
        (work_of work_u32.old work_u64.old work_f64.old) }
{
    if !has_room(candidates, ends.len(), costs.len()) {
        work::clear_work(work_u32, work_u64, work_f64);
        return Err(Error::ShortOutput);
    }
    copy_out(frames, candidates, work_u32, work_f64, ends, costs);
    work::clear_work(work_u32, work_u64, work_f64);
    Ok(candidates)
}

// The candidates of a plan: for candidate i its left boundary at ends[3 i], its right boundary at ends[3 i + 1],
// its reason at ends[3 i + 2] and its cost at costs[i].
pub fn candidate_list(
    r: Recording,
    segment: SegmentConfig,
    settings: PlanConfig,
    readings: &Readings,
    work_u32: &mut [u32],
    work_u64: &mut [u64],
    work_f64: &mut [f64],
    ends: &mut [u32],
    costs: &mut [f64],
) -> Answer
    ensures answer { end_of result (output_of ends.new costs.new)
        (work_of work_u32.new work_u64.new work_f64.new)
        ≡ candidate_list_of r segment settings
        readings.now.values.now readings.now.flags.now readings.now.levels.now
        (output_of ends.old costs.old)
        (work_of work_u32.old work_u64.old work_f64.old) }
    ensures fitting { Fitting readings.now.values.now readings.now.levels.now }
{
    let n32 = work_u32.len();
    let n64 = work_u64.len();
    let nf = work_f64.len();
    refusal::first_refusal(r, segment, settings, readings, n32, n64, nf)?;
    let candidates = finder::find_candidates(r, segment, settings, readings, work_u32, work_f64);
    hand_out(
        readings.values.len(),
        candidates,
        work_u32,
        work_u64,
        work_f64,
        ends,
        costs,
    )
}
