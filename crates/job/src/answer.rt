// What the reader answers.
ghost use Rattle.std.specs.Prelude.{◌≡◌};
ghost use Rattle.job.specs.Answer.{fault_number};

use grid::validate::Recording;
use plan_settings::config::PlanConfig;
use silence_list::config::SegmentConfig;

// What a job asks for, but for its lists: these begin at a place of the job, and there is one value for each frame.
#[derive(Clone, Copy)]
pub struct Head {
    pub recording: Recording,
    pub segment: SegmentConfig,
    pub settings: PlanConfig,
    pub frames: usize,
    pub lists: usize,
}

// Why bytes are no job.
#[derive(Clone, Copy, Debug, PartialEq, Eq)]
pub enum Fault {
    TooLong,
    UnknownBit,
    UnknownKind,
    CutShort,
    TooManyFrames,
    BytesAfter,
}

// Why bytes are no job, and the place where that shows.
#[derive(Clone, Copy, Debug, PartialEq, Eq)]
pub struct Refusal {
    pub fault: Fault,
    pub at: usize,
}

// Document 01's number for each case.
impl From<Fault> for u32 {
    ghost from_gives = { λ fault n. n ≡ fault_number fault };

    fn from(fault: Fault) -> u32 {
        match fault {
            Fault::TooLong => 19,
            Fault::UnknownBit => 19,
            Fault::UnknownKind => 19,
            Fault::CutShort => 19,
            Fault::TooManyFrames => 19,
            Fault::BytesAfter => 19,
        }
    }
}
