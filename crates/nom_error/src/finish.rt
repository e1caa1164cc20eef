//! The answer of a parser when no more input can come.
ghost use Rattle.std.specs.Prelude.{Result};
ghost use Rattle.nom_error.specs.Answers.{IsFinished, WantsMore};

use crate::answer::{Err, IResult};

/// The reason why a finished parse has no output.
#[derive(Clone, Debug, Drop, PartialEq, Eq)]
pub enum FinishError<E> {
    /// The parser refused or failed.
    Parse(E),
    /// Memory ran out.
    OutOfMemory,
}

/// Ends a parse: a refusal and a failure become one error.
pub trait Finish<I, O, E>: Sized {
    ghost use Rattle.nom_error.specs.declared.finish.FinishError.{FinishError};

    /// The values that may be finished: those that don't need more input.
    ghost can_finish: { Self → Type 0 };

    ghost finish_gives: { Self → Result (I × O) (FinishError E) → Type 0 };

    fn finish(self) -> Result<(I, O), FinishError<E>>
        requires { can_finish self }
        ensures { finish_gives self result };
}

impl<I, O, E> Finish<I, O, E> for IResult<I, O, E> {
    ghost can_finish = { λ r. WantsMore r → ⊥ };

    ghost finish_gives = { IsFinished };

    fn finish(self) -> Result<(I, O), FinishError<E>> {
        match self {
            Ok(accepted) => Ok(accepted),
            Err(Err::Error(error)) => Err(FinishError::Parse(error)),
            Err(Err::Failure(error)) => Err(FinishError::Parse(error)),
            Err(Err::OutOfMemory) => Err(FinishError::OutOfMemory),
            Err(Err::Incomplete(_)) => unreachable!(),
        }
    }
}
