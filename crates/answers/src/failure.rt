// Why a question has no answer of its own, and what is answered then.
ghost use Rattle.std.specs.Prelude.{◌≡◌, alloc_error};
ghost use Rattle.answers.specs.Failures.{settled};
ghost use Rattle.answers.specs.declared.failure.Failure.TheVariants as failure;

use crate::Answer;
use refusal::Refusal;
use std::alloc::{AllocError, AllocFailed};

/// Why a question has no answer of its own.
#[derive(Clone, Copy, Debug, PartialEq, Eq)]
pub enum Failure {
    /// It asks for what is not there yet.
    Error,
    Refused(Refusal),
    Alloc(AllocError),
}

impl From<Refusal> for Failure {
    ghost from_gives = { λ r e. e ≡ failure.Refused r };

    fn from(refusal: Refusal) -> Self {
        Self::Refused(refusal)
    }
}

impl From<AllocError> for Failure {
    ghost from_gives = { λ a e. e ≡ failure.Alloc a };

    fn from(error: AllocError) -> Self {
        Self::Alloc(error)
    }
}

impl<T: Drop> From<AllocFailed<T>> for Failure {
    ghost from_gives = { λ _ e. e ≡ failure.Alloc alloc_error };

    fn from(failed: AllocFailed<T>) -> Self {
        Self::Alloc(failed.into())
    }
}

/// The answer to a question: a refusal and an error are answers too, want of memory has none.
pub fn settled(asked: Result<Answer, Failure>) -> Result<Answer, AllocError>
    ensures { result ≡ settled asked }
{
    asked.or_else(|failure| match failure {
        Failure::Error => Ok(Answer::Error),
        Failure::Refused(refusal) => Ok(Answer::Refused(refusal)),
        Failure::Alloc(error) => Err(error),
    })
}
