//! The prefixes of a term.
ghost use Rattle.std.specs.Prelude.{List};
ghost use Rattle.nom_language.specs.Operators.{prefixes_of};
ghost use Rattle.nom_language.specs.Words as Words;

use nom_error::answer::PResult;
use nom_error::kind::ErrorKind;
use nom_error::mode::OutputMode;
use nom_internal::parser::{Parser, StreamParser};
use nom_operators::prefixes::{Prefixes, no_prefixes};
use nom_repeat::bounds::any_items;
use nom_traits::input::{Input, Items};
use std::alloc::Allocator;

/// The parser of the prefixes of a term: as `many0`, but the first takes no memory.
#[derive(Drop)]
pub struct PrefixList<A, F> {
    pub alloc: A,
    pub parser: F,
}

impl<I: Input, A: Allocator + Copy, F: Parser<I> + Drop> Parser<I> for PrefixList<A, F> {
    ghost use Rattle.nom_multi.specs.laws.ManyLaws.{many0_lawful};

    type Output = Prefixes<F::Output, A>;

    type Error = F::Error;

    ghost State = { F.State };

    ghost state = { λ p. F.state p.parser };

    ghost Tree = { List F.Tree };

    ghost grammar = { λ s. prefixes_of I.model F.Error.errors (F.grammar s) };

    ghost word = { λ s. Words.prefixes_of I.model F.Error.errors (F.word s) };

    ghost worded = { λ s. Words.prefixes_worded I.model F.Error.errors (F.worded s) };

    #[inline]
    fn process<OM: OutputMode>(&mut self, input: I) -> PResult<I, Self::Output, Self::Error> {
        let none = no_prefixes::<OM::Output, F::Output, A>(self.alloc);
        any_items::<OM, I, F, Prefixes<F::Output, A>>(
            &mut self.parser,
            input,
            none,
            ErrorKind::Many0,
        )
    }

    ghost lawful = { λ s k. many0_lawful I.lawful F.Error.errors (F.lawful s k) };
}

impl<I: Input, A: Allocator + Copy, F: StreamParser<I> + Drop> StreamParser<I>
    for PrefixList<A, F> {
    ghost use Rattle.nom_language.specs.laws.PinnedLaws.{prefixes_pinned};
    ghost use Rattle.nom_multi.specs.laws.ManyLaws.{many0_steady};

    ghost Pins = { λ p. F.Pins p.parser };

    ghost pinned = { λ p k h. prefixes_pinned (F.pinned p.parser k h) };

    ghost steady = { λ s k. many0_steady I.lawful F.Error.errors (F.steady s k) };
}
