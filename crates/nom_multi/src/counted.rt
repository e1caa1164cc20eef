//! A list after its length.
ghost use Rattle.std.specs.Prelude.{List};
ghost use Rattle.nom_multi.specs.Lengths.{length_count_of};
ghost use Rattle.nom_multi.specs.LengthWords as Words;

use nom_error::answer::{Err, PResult};
use nom_error::mode::{Emit, OutputM, OutputMode};
use nom_error::value::ParseError;
use nom_internal::parser::{Parser, StreamParser};
use nom_repeat::ahead::list_ahead;
use nom_repeat::exact::items_exactly;
use nom_traits::convert::ToUsize;
use nom_traits::input::Items;
use std::alloc::Allocator;

/// The parser that `length_count` returns: a length n, and n outputs of a parser after it.
#[derive(Drop)]
pub struct LengthCount<A, F, G> {
    pub alloc: A,
    pub length: F,
    pub parser: G,
}

impl<
    I: Items,
    A: Allocator + Copy,
    F: Parser<I, Output: ToUsize> + Drop,
    G: Parser<I, Error = F::Error> + Drop,
> Parser<I> for LengthCount<A, F, G> {
    ghost use Rattle.nom_multi.specs.laws.LengthLaws.{length_count_lawful};

    type Output = Vec<G::Output, A>;

    type Error = F::Error;

    ghost State = { F.State × G.State };

    ghost state = { λ p. (F.state p.length, G.state p.parser) };

    ghost Tree = { List G.Tree };

    ghost grammar = { λ s. length_count_of I.model F.Error.errors F.Output.size (F.grammar s.0) (G.grammar s.1) };

    ghost word = { λ s. Words.length_count_of I.model F.Error.errors F.Output.size (F.word s.0) (G.word s.1) };

    ghost worded = { λ s. Words.length_count_worded I.model F.Error.errors F.Output.size (F.worded s.0) (G.worded s.1) };

    #[inline]
    fn process<OM: OutputMode>(&mut self, input: I) -> PResult<I, Self::Output, Self::Error> {
        let (rest, length) = self
            .length
            .process::<OutputM<Emit, OM::Error, OM::Incomplete>>(input)?;
        let count = match length {
            Some(length) => length.to_usize(),
            None => unreachable!(),
        };
        match list_ahead::<OM, I, G, A>(&mut self.parser, rest, self.alloc, count) {
            Ok(none) => items_exactly::<OM, I, G, A>(&mut self.parser, rest, none, count),
            Err(_) => Err(Err::OutOfMemory),
        }
    }

    ghost lawful = { λ s k. length_count_lawful I.lawful F.Error.errors k.1.1 (F.lawful s.0 k.0) (G.lawful s.1 k.1.0) };
}

impl<
    I: Items,
    A: Allocator + Copy,
    F: StreamParser<I, Output: ToUsize> + Drop,
    G: StreamParser<I, Error = F::Error> + Drop,
> StreamParser<I> for LengthCount<A, F, G> {
    ghost use Rattle.nom_repeat.specs.Lists.{list_pinned};
    ghost use Rattle.nom_multi.specs.laws.LengthLaws.{length_count_steady};

    ghost Pins = { λ p. G.Pins p.parser };

    ghost pinned = { λ p k h. list_pinned (G.pinned p.parser k.1.0 h) };

    ghost steady = { λ s k. length_count_steady I.lawful F.Error.errors k.1.1 (F.steady s.0 k.0) (G.steady s.1 k.1.0) };
}
