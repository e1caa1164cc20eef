//! Items before a needle.
ghost use Rattle.std.specs.Prelude.{true, false};
ghost use Rattle.nom_internal.specs.Prelude.{Slice, slice_pinned, sliced};
ghost use Rattle.nom_bytes.specs.Untils.{until_meaning};
ghost use Rattle.nom_bytes.specs.laws.UntilLaws.{until_lawful, until_steady};
ghost use Rattle.nom_bytes.specs.Words as Words;

use nom_error::answer::{Err, Needed, PResult};
use nom_error::kind::ErrorKind;
use nom_error::mode::{IsStreaming, OutputMode};
use nom_error::value::{ParseError, refusal};
use nom_internal::parser::{Parser, StreamParser};
use nom_internal::slices::front;
use nom_search::substring::FindSubstring;
use nom_traits::input::Input;
use std::marker::PhantomData;

/// The parser that `take_until` returns: the items before the first occurrence of `tag`.
#[derive(Drop)]
pub struct TakeUntil<T, I, E> {
    pub tag: T,
    pub error: PhantomData<(I, E)>,
}

impl<T: Copy, I: Input + FindSubstring<T>, E: ParseError<I>> Parser<I> for TakeUntil<T, I, E> {
    type Output = I;

    type Error = E;

    // Needles that are equal as models are one parser.
    ghost State = { I.Needle };

    ghost state = { λ p. I.needle_model p.tag };

    ghost Tree = { Slice I.model };

    ghost grammar = { λ needle. sliced I.model (until_meaning I.model E.errors I.finds false needle) };

    ghost word = { λ needle. Words.until_of I.model E.errors I.finds false needle };

    ghost worded = { λ needle. Words.until_worded I.model E.errors I.finds false needle };

    #[inline(always)]
    fn process<OM: OutputMode>(&mut self, input: I) -> PResult<I, I, E> {
        input.known();
        match input.find_substring(self.tag) {
            Some(index) => Ok((input.take_from(index), front::<OM::Output, I>(input, index))),
            None if OM::Incomplete::STREAMING => Err(Err::Incomplete(Needed::Unknown)),
            None => Err(refusal::<OM::Error, I, E>(input, ErrorKind::TakeUntil)),
        }
    }

    ghost lawful = { λ needle k. until_lawful I.model I.lawful E.errors I.finds I.finding false needle };
}

impl<T: Copy, I: Input + FindSubstring<T>, E: ParseError<I>> StreamParser<I>
    for TakeUntil<T, I, E> {
    ghost pinned = { λ p k h. slice_pinned I.views };

    ghost steady = { λ needle k. until_steady I.model I.lawful E.errors I.finds I.finding false needle };
}

/// The parser that `take_until1` returns: the items before the first occurrence of `tag`, at least one.
#[derive(Drop)]
pub struct TakeUntil1<T, I, E> {
    pub tag: T,
    pub error: PhantomData<(I, E)>,
}

impl<T: Copy, I: Input + FindSubstring<T>, E: ParseError<I>> Parser<I> for TakeUntil1<T, I, E> {
    type Output = I;

    type Error = E;

    // Needles that are equal as models are one parser.
    ghost State = { I.Needle };

    ghost state = { λ p. I.needle_model p.tag };

    ghost Tree = { Slice I.model };

    ghost grammar = { λ needle. sliced I.model (until_meaning I.model E.errors I.finds true needle) };

    ghost word = { λ needle. Words.until_of I.model E.errors I.finds true needle };

    ghost worded = { λ needle. Words.until_worded I.model E.errors I.finds true needle };

    #[inline(always)]
    fn process<OM: OutputMode>(&mut self, input: I) -> PResult<I, I, E> {
        input.known();
        match input.find_substring(self.tag) {
            Some(0) => Err(refusal::<OM::Error, I, E>(input, ErrorKind::TakeUntil)),
            Some(n) => Ok((input.take_from(n), front::<OM::Output, I>(input, n))),
            None if OM::Incomplete::STREAMING => Err(Err::Incomplete(Needed::Unknown)),
            None => Err(refusal::<OM::Error, I, E>(input, ErrorKind::TakeUntil)),
        }
    }

    ghost lawful = { λ needle k. until_lawful I.model I.lawful E.errors I.finds I.finding true needle };
}

impl<T: Copy, I: Input + FindSubstring<T>, E: ParseError<I>> StreamParser<I>
    for TakeUntil1<T, I, E> {
    ghost pinned = { λ p k h. slice_pinned I.views };

    ghost steady = { λ needle k. until_steady I.model I.lawful E.errors I.finds I.finding true needle };
}
