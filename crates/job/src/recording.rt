// The numbers of the recording, which every job has: 27 bytes.
ghost use Rattle.std.specs.Prelude.{◌≡◌, ◌+◌, ◌≤◌, IfOk};
ghost use Rattle.job.specs.Reads.{HasTried};
ghost use Rattle.job.specs.Recorded.{recorded_at};

use crate::answer::Refusal;
use crate::fields::Fields;
use grid::validate::Recording;
use kinds::flagged;

// The recording, and how many frames it has.
#[derive(Clone, Copy)]
pub struct Recorded {
    pub recording: Recording,
    pub frames: u32,
}

// Each number stands at its place.
pub fn recorded_at(fields: &mut Fields) -> Result<Recorded, Refusal>
    requires { fields.old.at ≤ 900 }
    ensures next_value { IfOk result (λ _. fields.new.at ≡ fields.old.at + 27) }
    ensures read { HasTried fields.old
        (recorded_at fields.old.job.now fields.old.at) result fields.new }
{
    let recording = Recording {
        sample_rate: fields.next(),
        channels: fields.next(),
        frame_rate: fields.next(),
        hop: fields.next(),
        len: fields.next(),
        domain: flagged::domain_of(0 < fields.kind(true, 1)?),
    };
    Ok(Recorded {
        recording,
        frames: fields.next(),
    })
}
