//! A part that runs on a condition.
ghost use Rattle.std.specs.Prelude.{◌≡◌, Bool, Option, true};
ghost use Rattle.nom_combinator.specs.Conditions.{CondSideCondition, cond_of};
ghost use Rattle.nom_combinator.specs.Words as Words;
ghost use Rattle.nom_combinator.specs.laws.ConditionLaws.{cond_lawful, cond_steady, cond_pinned};

use nom_error::answer::PResult;
use nom_error::mode::OutputMode;
use nom_internal::built::built;
use nom_internal::parser::{Parser, StreamParser};
use nom_traits::input::Items;

/// The parser that `cond` returns. Where the condition is false, it accepts at once with `None`.
#[derive(Drop)]
pub struct Cond<F> {
    pub condition: bool,
    pub parser: F,
}

impl<I: Items, F: Parser<I> + Drop> Parser<I> for Cond<F> {
    type Output = Option<F::Output>;

    type Error = F::Error;

    ghost State = { Bool × F.State };

    ghost state = { λ p. (p.condition, F.state p.parser) };

    ghost Tree = { Option F.Tree };

    ghost grammar = { λ s. cond_of s.0 (F.grammar s.1) };

    ghost word = { λ s. Words.cond_of s.0 (F.word s.1) };

    ghost worded = { λ s. Words.cond_worded s.0 (F.worded s.1) };

    ghost SideCondition = { λ mode old new. CondSideCondition old.condition (F.SideCondition mode old.parser new.parser) };

    #[inline(always)]
    fn process<OM: OutputMode>(&mut self, input: I) -> PResult<I, Self::Output, Self::Error> {
        if self.condition {
            let (rest, output) = self.parser.process::<OM>(input)?;
            Ok((rest, built::<OM::Output, Option<F::Output>>(output)))
        } else {
            input.known();
            Ok((input, built::<OM::Output, Option<F::Output>>(None)))
        }
    }

    ghost lawful = { λ s k. cond_lawful s.0 (λ e. F.lawful s.1 (k e)) };
}

impl<I: Items, F: StreamParser<I> + Drop> StreamParser<I> for Cond<F> {
    ghost Pins = { λ p. p.condition ≡ true → F.Pins p.parser };

    ghost pinned = { λ p k h. cond_pinned p.condition (λ e. F.pinned p.parser (k e) (h e)) };

    ghost steady = { λ s k. cond_steady s.0 (λ e. F.steady s.1 (k e)) };
}
