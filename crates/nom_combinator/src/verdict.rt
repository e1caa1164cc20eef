//! The parsers that change or test a part's outcome.
ghost use Rattle.std.specs.Prelude.{◌≡◌, Option, Some, true, false};
ghost use Rattle.nom_internal.specs.Prelude.{OrSideCondition, ThenSideCondition, with_errors, with_outputs, with_streaming};
ghost use Rattle.nom_combinator.specs.Verdicts.{cut_of, opt_of, peek_of};
ghost use Rattle.nom_combinator.specs.Verdicts.{NotSideCondition, not_of, complete_of};
ghost use Rattle.nom_combinator.specs.laws.VerdictLaws.{complete_lawful, cut_lawful, cut_steady, opt_pinned, opt_lawful, opt_steady, peek_lawful};
ghost use Rattle.nom_combinator.specs.laws.VerdictLaws.{peek_steady, not_lawful, not_steady};
ghost use Rattle.nom_combinator.specs.Words as Words;

use nom_error::answer::{Err, PResult};
use nom_error::kind::ErrorKind;
use nom_error::mode::{Check, Complete, Emit, OutputM, OutputMode};
use nom_error::value::refusal;
use nom_internal::built::built;
use nom_internal::parser::{Parser, StreamParser};
use nom_traits::input::Items;

/// The parser that `cut` returns. Its refusals are failures.
#[derive(Drop)]
pub struct Cut<F> {
    pub parser: F,
}

impl<I: Items, F: Parser<I> + Drop> Parser<I> for Cut<F> {
    type Output = F::Output;

    type Error = F::Error;

    ghost State = { F.State };

    ghost state = { λ p. F.state p.parser };

    ghost Tree = { F.Tree };

    ghost grammar = { λ s. cut_of (F.grammar s) };

    ghost word = { λ s. Words.cut_of (F.word s) };

    ghost worded = { λ s. Words.cut_worded (F.worded s) };

    ghost SideCondition = { λ mode old new. F.SideCondition (with_errors true mode) old.parser new.parser };

    #[inline(always)]
    fn process<OM: OutputMode>(&mut self, input: I) -> PResult<I, Self::Output, Self::Error> {
        match self
            .parser
            .process::<OutputM<OM::Output, Emit, OM::Incomplete>>(input)
        {
            Ok(accepted) => Ok(accepted),
            Err(Err::Error(Some(error))) => Err(Err::Failure(error)),
            Err(Err::Error(None)) => unreachable!(),
            Err(Err::Incomplete(needed)) => Err(Err::Incomplete(needed)),
            Err(Err::Failure(error)) => Err(Err::Failure(error)),
            Err(Err::OutOfMemory) => Err(Err::OutOfMemory),
        }
    }

    ghost lawful = { λ s k. cut_lawful (F.lawful s k) };
}

impl<I: Items, F: StreamParser<I> + Drop> StreamParser<I> for Cut<F> {
    ghost Pins = { λ p. F.Pins p.parser };

    ghost pinned = { λ p. F.pinned p.parser };

    ghost steady = { λ s k. cut_steady (F.steady s k) };
}

/// The parser that `opt` returns. It accepts with `None` if its part refuses.
#[derive(Drop)]
pub struct Opt<F> {
    pub parser: F,
}

impl<I: Items, F: Parser<I> + Drop> Parser<I> for Opt<F> {
    type Output = Option<F::Output>;

    type Error = F::Error;

    ghost State = { F.State };

    ghost state = { λ p. F.state p.parser };

    ghost Tree = { Option F.Tree };

    ghost grammar = { λ s. opt_of (F.grammar s) };

    ghost word = { λ s. Words.opt_of (F.word s) };

    ghost worded = { λ s. Words.opt_worded (F.worded s) };

    ghost SideCondition = { λ mode old new i. OrSideCondition (F.SideCondition (with_errors false mode) old.parser new.parser i) (λ rest. rest ≡ Some i) };

    #[inline(always)]
    fn process<OM: OutputMode>(&mut self, input: I) -> PResult<I, Self::Output, Self::Error> {
        input.known();
        match self
            .parser
            .process::<OutputM<OM::Output, Check, OM::Incomplete>>(input)
        {
            Ok((rest, output)) => Ok((rest, built::<OM::Output, Option<F::Output>>(output))),
            Err(Err::Error(_)) => Ok((input, built::<OM::Output, Option<F::Output>>(None))),
            Err(Err::Incomplete(needed)) => Err(Err::Incomplete(needed)),
            Err(Err::Failure(failure)) => Err(Err::Failure(failure)),
            Err(Err::OutOfMemory) => Err(Err::OutOfMemory),
        }
    }

    ghost lawful = { λ s k. opt_lawful (F.lawful s k) };
}

impl<I: Items, F: StreamParser<I> + Drop> StreamParser<I> for Opt<F> {
    ghost Pins = { λ p. F.Pins p.parser };

    ghost pinned = { λ p k h. opt_pinned (F.pinned p.parser k h) };

    ghost steady = { λ s k. opt_steady (F.steady s k) };
}

/// The parser that `peek` returns. It consumes nothing.
#[derive(Drop)]
pub struct Peek<F> {
    pub parser: F,
}

impl<I: Items, F: Parser<I> + Drop> Parser<I> for Peek<F> {
    type Output = F::Output;

    type Error = F::Error;

    ghost State = { F.State };

    ghost state = { λ p. F.state p.parser };

    ghost Tree = { F.Tree };

    ghost grammar = { λ s. peek_of (F.grammar s) };

    ghost word = { λ s. Words.peek_of (F.word s) };

    ghost worded = { λ s. Words.peek_worded (F.worded s) };

    ghost SideCondition = { λ mode old new i. ThenSideCondition (F.SideCondition mode old.parser new.parser i) (λ _ rest. rest ≡ Some i) };

    #[inline(always)]
    fn process<OM: OutputMode>(&mut self, input: I) -> PResult<I, Self::Output, Self::Error> {
        input.known();
        let (_, output) = self.parser.process::<OM>(input)?;
        Ok((input, output))
    }

    ghost lawful = { λ s k. peek_lawful (F.lawful s k) };
}

impl<I: Items, F: StreamParser<I> + Drop> StreamParser<I> for Peek<F> {
    ghost Pins = { λ p. F.Pins p.parser };

    ghost pinned = { λ p. F.pinned p.parser };

    ghost steady = { λ s k. peek_steady (F.steady s k) };
}

/// The parser that `not` returns. Its part must refuse.
#[derive(Drop)]
pub struct Not<F> {
    pub parser: F,
}

impl<I: Items, F: Parser<I> + Drop> Parser<I> for Not<F> {
    type Output = ();

    type Error = F::Error;

    ghost State = { F.State };

    ghost state = { λ p. F.state p.parser };

    ghost Tree = { Unit {0} };

    ghost grammar = { λ s. not_of F.Error.errors (F.grammar s) };

    ghost word = { λ s. Words.not_of F.Error.errors (F.word s) };

    ghost worded = { λ s. Words.not_worded F.Error.errors (F.worded s) };

    ghost SideCondition = { λ mode old new i. NotSideCondition (F.SideCondition (with_outputs false (with_errors false mode)) old.parser new.parser i) i };

    #[inline(always)]
    fn process<OM: OutputMode>(&mut self, input: I) -> PResult<I, Self::Output, Self::Error> {
        input.known();
        match self
            .parser
            .process::<OutputM<Check, Check, OM::Incomplete>>(input)
        {
            Ok(_) => Err(refusal::<OM::Error, I, F::Error>(input, ErrorKind::Not)),
            Err(Err::Error(_)) => Ok((input, built::<OM::Output, ()>(()))),
            Err(Err::Incomplete(more)) => Err(Err::Incomplete(more)),
            Err(Err::Failure(error)) => Err(Err::Failure(error)),
            Err(Err::OutOfMemory) => Err(Err::OutOfMemory),
        }
    }

    ghost lawful = { λ s k. not_lawful (F.lawful s k) };
}

impl<I: Items, F: StreamParser<I> + Drop> StreamParser<I> for Not<F> {
    ghost use Rattle.nom_internal.specs.Pinned.{value_pinned};

    ghost pinned = { λ p k h. value_pinned };

    ghost steady = { λ s k. not_steady (F.steady s k) };
}

/// The parser that `complete` returns. It runs its part in complete mode.
#[derive(Drop)]
pub struct MakeComplete<F> {
    pub parser: F,
}

impl<I: Items, F: Parser<I> + Drop> Parser<I> for MakeComplete<F> {
    type Output = F::Output;

    type Error = F::Error;

    ghost State = { F.State };

    ghost state = { λ p. F.state p.parser };

    ghost Tree = { F.Tree };

    ghost grammar = { λ s. complete_of F.Error.errors (F.grammar s) };

    ghost word = { λ s. Words.complete_of F.Error.errors (F.word s) };

    ghost worded = { λ s. Words.complete_worded F.Error.errors (F.worded s) };

    ghost SideCondition = { λ mode old new. F.SideCondition (with_streaming false mode) old.parser new.parser };

    #[inline(always)]
    fn process<OM: OutputMode>(&mut self, input: I) -> PResult<I, Self::Output, Self::Error> {
        match self
            .parser
            .process::<OutputM<OM::Output, OM::Error, Complete>>(input)
        {
            Ok(accepted) => Ok(accepted),
            Err(Err::Error(error)) => Err(Err::Error(error)),
            Err(Err::Incomplete(_)) => {
                Err(refusal::<OM::Error, I, F::Error>(input, ErrorKind::Complete))
            }
            Err(Err::Failure(error)) => Err(Err::Failure(error)),
            Err(Err::OutOfMemory) => Err(Err::OutOfMemory),
        }
    }

    ghost lawful = { λ s k. complete_lawful (F.lawful s k) };
}
