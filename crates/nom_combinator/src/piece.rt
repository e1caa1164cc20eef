//! The parsers that return the part of the input that they consume.
ghost use Rattle.std.specs.Prelude.{false};
ghost use Rattle.nom_internal.specs.Prelude.{Slice, slice_pinned, pair_pinned, with_outputs};
ghost use Rattle.nom_internal.specs.laws.RecognizedLaws.{recognized_lawful, recognized_steady};
ghost use Rattle.nom_combinator.specs.Verdicts.{recognize_of, consumed_of};
ghost use Rattle.nom_combinator.specs.laws.VerdictLaws.{consumed_lawful, consumed_steady};
ghost use Rattle.nom_combinator.specs.Words as Words;

use nom_error::answer::PResult;
use nom_error::mode::{Check, OutputM, OutputMode};
use nom_internal::parser::{Parser, StreamParser};
use nom_internal::sequence::combine;
use nom_internal::slices::before;
use nom_traits::input::Input;

/// The parser that `recognize` returns.
#[derive(Drop)]
pub struct Recognize<F> {
    pub parser: F,
}

impl<I: Input, F: Parser<I> + Drop> Parser<I> for Recognize<F> {
    type Output = I;

    type Error = F::Error;

    ghost State = { F.State };

    ghost state = { λ p. F.state p.parser };

    ghost Tree = { Slice I.model };

    ghost grammar = { λ s. recognize_of I.model (F.grammar s) };

    ghost word = { λ s. Words.recognize_of I.model (F.word s) };

    ghost worded = { λ s. Words.recognize_worded I.model (F.worded s) };

    ghost SideCondition = { λ mode old new. F.SideCondition (with_outputs false mode) old.parser new.parser };

    #[inline(always)]
    fn process<OM: OutputMode>(&mut self, input: I) -> PResult<I, I, F::Error> {
        let (rest, _) = self
            .parser
            .process::<OutputM<Check, OM::Error, OM::Incomplete>>(input)?;
        let slice = before::<OM::Output, I>(input, rest);
        Ok((rest, slice))
    }

    ghost lawful = { λ s k. recognized_lawful I.lawful (F.lawful s k) };
}

impl<I: Input, F: StreamParser<I> + Drop> StreamParser<I> for Recognize<F> {
    ghost pinned = { λ p k h. slice_pinned I.views };

    ghost steady = { λ s k. recognized_steady I.lawful (F.steady s k) };
}

/// The parser that `consumed` returns.
#[derive(Drop)]
pub struct Consumed<F> {
    pub parser: F,
}

impl<I: Input, F: Parser<I> + Drop> Parser<I> for Consumed<F> {
    type Output = (I, F::Output);

    type Error = F::Error;

    ghost State = { F.State };

    ghost state = { λ p. F.state p.parser };

    ghost Tree = { Slice I.model × F.Tree };

    ghost grammar = { λ s. consumed_of I.model (F.grammar s) };

    ghost word = { λ s. Words.consumed_of I.model (F.word s) };

    ghost worded = { λ s. Words.consumed_worded I.model (F.worded s) };

    ghost SideCondition = { λ mode old new. F.SideCondition mode old.parser new.parser };

    #[inline(always)]
    fn process<OM: OutputMode>(&mut self, input: I) -> PResult<I, Self::Output, Self::Error> {
        let (rest, output) = self.parser.process::<OM>(input)?;
        let slice = before::<OM::Output, I>(input, rest);
        Ok((rest, combine(slice, output)))
    }

    ghost lawful = { λ s k. consumed_lawful I.lawful (F.lawful s k) };
}

impl<I: Input, F: StreamParser<I> + Drop> StreamParser<I> for Consumed<F> {
    ghost Pins = { λ p. F.Pins p.parser };

    ghost pinned = { λ p k h. pair_pinned (slice_pinned I.views) (F.pinned p.parser k h) };

    ghost steady = { λ s k. consumed_steady I.lawful (F.steady s k) };
}
