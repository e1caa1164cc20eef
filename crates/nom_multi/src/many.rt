//! Items until one is refused.
ghost use Rattle.std.specs.Prelude.{List};
ghost use Rattle.nom_multi.specs.Many.{many0_of, many1_of};
ghost use Rattle.nom_multi.specs.Words as Words;

use nom_error::answer::{Err, PResult};
use nom_error::kind::ErrorKind;
use nom_error::mode::OutputMode;
use nom_error::value::ParseError;
use nom_internal::parser::{Parser, StreamParser};
use nom_repeat::ahead::list_ahead;
use nom_repeat::bounds::{any_items, one_item};
use nom_repeat::items::TooFew;
use nom_traits::input::{Input, Items};
use std::alloc::Allocator;

/// The parser that `many0` returns.
#[derive(Drop)]
pub struct Many0<A, F> {
    pub alloc: A,
    pub parser: F,
}

impl<I: Input, A: Allocator + Copy, F: Parser<I> + Drop> Parser<I> for Many0<A, F> {
    ghost use Rattle.nom_multi.specs.laws.ManyLaws.{many0_lawful};

    type Output = Vec<F::Output, A>;

    type Error = F::Error;

    ghost State = { F.State };

    ghost state = { λ p. F.state p.parser };

    ghost Tree = { List F.Tree };

    ghost grammar = { λ s. many0_of I.model F.Error.errors (F.grammar s) };

    ghost word = { λ s. Words.many0_of I.model F.Error.errors (F.word s) };

    ghost worded = { λ s. Words.many0_worded I.model F.Error.errors (F.worded s) };

    #[inline]
    fn process<OM: OutputMode>(&mut self, input: I) -> PResult<I, Self::Output, Self::Error> {
        match list_ahead::<OM, I, F, A>(&mut self.parser, input, self.alloc, usize::MAX) {
            Ok(none) => any_items::<OM, I, F, Vec<F::Output, A>>(
                &mut self.parser,
                input,
                none,
                ErrorKind::Many0,
            ),
            Err(_) => Err(Err::OutOfMemory),
        }
    }

    ghost lawful = { λ s k. many0_lawful I.lawful F.Error.errors (F.lawful s k) };
}

impl<I: Input, A: Allocator + Copy, F: StreamParser<I> + Drop> StreamParser<I> for Many0<A, F> {
    ghost use Rattle.nom_repeat.specs.Lists.{list_pinned};
    ghost use Rattle.nom_multi.specs.laws.ManyLaws.{many0_steady};

    ghost Pins = { λ p. F.Pins p.parser };

    ghost pinned = { λ p k h. list_pinned (F.pinned p.parser k h) };

    ghost steady = { λ s k. many0_steady I.lawful F.Error.errors (F.steady s k) };
}

/// The parser that `many1` returns.
#[derive(Drop)]
pub struct Many1<A, F> {
    pub alloc: A,
    pub parser: F,
}

impl<I: Input, A: Allocator + Copy, F: Parser<I> + Drop> Parser<I> for Many1<A, F> {
    ghost use Rattle.nom_multi.specs.laws.ManyLaws.{many1_lawful};

    type Output = Vec<F::Output, A>;

    type Error = F::Error;

    ghost State = { F.State };

    ghost state = { λ p. F.state p.parser };

    ghost Tree = { List F.Tree };

    ghost grammar = { λ s. many1_of I.model F.Error.errors (F.grammar s) };

    ghost word = { λ s. Words.many1_of I.model F.Error.errors (F.word s) };

    ghost worded = { λ s. Words.many1_worded I.model F.Error.errors (F.worded s) };

    #[inline]
    fn process<OM: OutputMode>(&mut self, input: I) -> PResult<I, Self::Output, Self::Error> {
        let none = match list_ahead::<OM, I, F, A>(
            &mut self.parser,
            input,
            self.alloc,
            usize::MAX,
        ) {
            Ok(none) => none,
            Err(_) => return Err(Err::OutOfMemory),
        };
        let (rest, first) = one_item::<OM, OM::Error, I, F, Vec<F::Output, A>>(
            &mut self.parser,
            input,
            none,
            TooFew::Added(ErrorKind::Many1),
            true,
        )?;
        any_items::<OM, I, F, Vec<F::Output, A>>(&mut self.parser, rest, first, ErrorKind::Many0)
    }

    ghost lawful = { λ s k. many1_lawful I.lawful F.Error.errors (F.lawful s k.0) };
}

impl<I: Input, A: Allocator + Copy, F: StreamParser<I> + Drop> StreamParser<I> for Many1<A, F> {
    ghost use Rattle.nom_repeat.specs.Lists.{list_pinned};
    ghost use Rattle.nom_multi.specs.laws.ManyLaws.{many1_steady};

    ghost Pins = { λ p. F.Pins p.parser };

    ghost pinned = { λ p k h. list_pinned (F.pinned p.parser k.0 h) };

    ghost steady = { λ s k. many1_steady I.lawful F.Error.errors (F.steady s k.0) };
}
