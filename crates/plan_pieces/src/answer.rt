// What the operation Plan answers.
ghost use Rattle.std.specs.Prelude.{◌≡◌};
ghost use Rattle.plan_pieces.specs.Answer.{error_number};
ghost use Rattle.plan_pieces.specs.declared.answer.Error.TheVariants.{Refused};

use plan_tests::refusal::Refusal;

// Why there is no plan.
#[derive(Clone, Copy, Debug, PartialEq, Eq)]
pub enum Error {
    Refused(Refusal),
    ShortParent,
    ShortOutput,
}

// How many pieces the plan has, or why there is none.
pub type Answer = Result<usize, Error>;

// A refusal from a test is one of the operation.
impl From<Refusal> for Error {
    ghost from_gives = { λ r e. e ≡ Refused r };

    fn from(r: Refusal) -> Error {
        Error::Refused(r)
    }
}

// Document 01's number for each case.
impl From<Error> for u32 {
    ghost from_gives = { λ e n. n ≡ error_number e };

    fn from(e: Error) -> u32 {
        match e {
            Error::Refused(r) => u32::from(r),
            Error::ShortParent => 14,
            Error::ShortOutput => 12,
        }
    }
}
