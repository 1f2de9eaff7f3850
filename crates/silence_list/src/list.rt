// The operation itself.
ghost use Rattle.std.specs.Prelude.{◌≡◌, ◌+◌, ◌≤◌, length, take, Err};
ghost use Rattle.base_terms.specs.Work.{work_of};
ghost use Rattle.silence_list.specs.Silences.{silences_in, end_of, silences_handed_out, silence_list_of, number_of};
ghost use Rattle.silence_list.specs.RefusalLaws.{SoundReady};
ghost use Rattle.silence_list.specs.declared.list.Error.TheVariants.{Refused};

use crate::config::SegmentConfig;
use crate::refusal;
use crate::refusal::Refusal;
use base_code::{front, work};
use grid::validate::Recording;
use grid::{Readings, durations};
use silence_runs::one_pass;

// Why the operation writes no silences.
#[derive(Clone, Copy, Debug, PartialEq, Eq)]
pub enum Error {
    Refused(Refusal),
    ShortOutput,
}

// A test that fails is why.
impl From<Refusal> for Error {
    ghost from_gives = { λ r e. e ≡ Refused r };

    fn from(r: Refusal) -> Error {
        Error::Refused(r)
    }
}

// Document 01's number for each case.
impl From<Error> for u32 {
    ghost from_gives = { λ e n. n ≡ number_of (Err e) };

    fn from(e: Error) -> u32 {
        match e {
            Error::Refused(r) => u32::from(r),
            Error::ShortOutput => 12,
        }
    }
}

// What the operation answers: how many silences it wrote, or why it wrote none.
pub type Answer = Result<usize, Error>;

// Writes the silences of an accepted recording to the front of a list that has room for two more numbers than frames.
// Returns how many numbers they take.
pub fn silences_in(r: Recording, c: SegmentConfig, readings: &Readings, list: &mut [u32]) -> usize
    requires sound_ready { SoundReady r c readings.now.values.now readings.now.flags.now }
    requires values_in_bounds { length readings.now.values.now + 2 ≤ length list.old }
    ensures value { result ≡ length (silences_in r c readings.now.values.now readings.now.flags.now) }
    ensures list_after { take result list.new
        ≡ silences_in r c readings.now.values.now readings.now.flags.now }
{
    let thresholds = silence_levels::thresholds(r.domain, c.threshold, readings, list);
    let min_sound = durations::frames_in(r.frame_rate, r.hop, c.min_sound) as usize;
    let min_silence = durations::frames_in(r.frame_rate, r.hop, c.min_silence) as usize;
    one_pass::list_silences(
        thresholds.on,
        thresholds.off,
        min_sound,
        min_silence,
        readings,
        list,
    )
}

// Hands out the numbers at the front of the first work list, two for each silence, and clears work memory.
fn hand_out(
    n: usize,
    work_u32: &mut [u32],
    work_u64: &mut [u64],
    work_f64: &mut [f64],
    out: &mut [u32],
) -> Answer
    requires { n ≤ length work_u32.old }
    ensures { end_of result out.new
        (work_of work_u32.new work_u64.new work_f64.new)
        ≡ silences_handed_out (take n work_u32.old) out.old
        (work_of work_u32.old work_u64.old work_f64.old) }
{
    if out.len() < n {
        work::clear_work(work_u32, work_u64, work_f64);
        return Err(Error::ShortOutput);
    }
    front::put_front(&work_u32[..n], out);
    work::clear_work(work_u32, work_u64, work_f64);
    Ok(n / 2)
}

// The silences of a recording: for silence i its first frame at out[2 i], and the frame after its last at out[2 i + 1].
pub fn silence_list(
    r: Recording,
    c: SegmentConfig,
    readings: &Readings,
    work_u32: &mut [u32],
    work_u64: &mut [u64],
    work_f64: &mut [f64],
    out: &mut [u32],
) -> Answer
    ensures { end_of result out.new
        (work_of work_u32.new work_u64.new work_f64.new)
        ≡ silence_list_of r c readings.now.values.now readings.now.flags.now readings.now.levels.now out.old
        (work_of work_u32.old work_u64.old work_f64.old) }
{
    let n32 = work_u32.len();
    let n64 = work_u64.len();
    let nf = work_f64.len();
    refusal::first_refusal(r, c, readings, n32, n64, nf)?;
    let n = silences_in(r, c, readings, work_u32);
    hand_out(n, work_u32, work_u64, work_f64, out)
}
