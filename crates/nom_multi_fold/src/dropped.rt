//! Parts whose outputs are never built.
ghost use Rattle.nom_multi_fold.specs.Dropped.{dropped_meaning};
ghost use Rattle.nom_multi_fold.specs.laws.DroppedLaws.{dropped_lawful};
ghost use Rattle.nom_multi_fold.specs.Words as Words;

use nom_error::answer::PResult;
use nom_error::mode::{Check, OutputM, OutputMode};
use nom_internal::built::built;
use nom_internal::parser::Parser;
use nom_traits::input::Items;

/// A parser whose outputs are never built.
#[derive(Drop)]
pub struct Dropped<F> {
    pub parser: F,
}

impl<I: Items, F: Parser<I> + Drop> Parser<I> for Dropped<F> {
    type Output = ();

    type Error = F::Error;

    ghost State = { F.State };

    ghost state = { λ p. F.state p.parser };

    ghost Tree = { F.Tree };

    ghost grammar = { λ s. record { meaning = dropped_meaning (F.grammar s).meaning; IsOutput = λ _ _. Unit {0} } };

    ghost word = { λ s. Words.dropped_of (F.word s) };

    ghost worded = { λ s. Words.dropped_worded (F.worded s) };

    #[inline(always)]
    fn process<OM: OutputMode>(&mut self, input: I) -> PResult<I, (), F::Error> {
        let (rest, _) = self
            .parser
            .process::<OutputM<Check, OM::Error, OM::Incomplete>>(input)?;
        Ok((rest, built::<OM::Output, ()>(())))
    }

    ghost lawful = { λ s k. dropped_lawful (F.lawful s k) };
}
