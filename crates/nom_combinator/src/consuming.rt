//! A part that leaves nothing.
ghost use Rattle.std.specs.Prelude.{false};
ghost use Rattle.nom_internal.specs.Prelude.{JudgedSideCondition, with_outputs};
ghost use Rattle.nom_internal.specs.laws.SequenceLaws.{sequence_lawful};
ghost use Rattle.nom_combinator.specs.laws.AllLaws.{eof_lawful};
ghost use Rattle.nom_combinator.specs.Ends.{all_consuming_of};
ghost use Rattle.nom_combinator.specs.Words as Words;

use crate::left::Eof;
use nom_error::answer::PResult;
use nom_error::mode::{Check, OutputM, OutputMode};
use nom_internal::parser::Parser;
use nom_traits::input::Input;

/// The parser that `all_consuming` returns. Nothing is left after it.
#[derive(Drop)]
pub struct AllConsuming<F> {
    pub parser: F,
}

impl<I: Input, F: Parser<I> + Drop> Parser<I> for AllConsuming<F> {
    type Output = F::Output;

    type Error = F::Error;

    ghost State = { F.State };

    ghost state = { λ p. F.state p.parser };

    ghost Tree = { F.Tree };

    ghost grammar = { λ s. all_consuming_of I.model F.Error.errors (F.grammar s) };

    ghost word = { λ s. Words.all_consuming_of I.model F.Error.errors (F.word s) };

    ghost worded = { λ s. Words.all_consuming_worded I.model F.Error.errors (F.worded s) };

    ghost SideCondition = { λ mode old new i. JudgedSideCondition (F.SideCondition mode old.parser new.parser i) };

    #[inline(always)]
    fn process<OM: OutputMode>(&mut self, input: I) -> PResult<I, Self::Output, Self::Error> {
        let (rest, output) = self.parser.process::<OM>(input)?;
        let mut end = Eof::<I, F::Error>::new();
        let (rest, _) = end.process::<OutputM<Check, OM::Error, OM::Incomplete>>(rest)?;
        Ok((rest, output))
    }

    ghost lawful = { λ s k. sequence_lawful I.lawful {second_mode = with_outputs false} (F.lawful s k.0) (eof_lawful I.model F.Error.errors) };
}
