//! The parsers that `take` and `tag` return.
ghost use Rattle.std.specs.Prelude.{ℕ, Bool};
ghost use Rattle.nom_internal.specs.Prelude.{modes, Slice, IsModelledBy, ShowsMeaning, slice_pinned, sliced};
ghost use Rattle.nom_bytes.specs.Takes.{take_meaning};
ghost use Rattle.nom_bytes.specs.laws.TakeLaws.{take_lawful, take_steady};
ghost use Rattle.nom_bytes.specs.Tags.{compares_by, tag_meaning};
ghost use Rattle.nom_bytes.specs.laws.TagLaws.{tag_lawful, tag_steady};
ghost use Rattle.nom_bytes.specs.Words as Words;

use nom_error::answer::{Err, Needed, PResult};
use nom_error::kind::ErrorKind;
use nom_error::mode::{IsStreaming, OutputMode};
use nom_error::value::{ParseError, refusal};
use nom_internal::parser::{Parser, StreamParser};
use nom_internal::slices::front;
use nom_traits::compare::{Compare, CompareResult};
use nom_traits::input::Input;
use std::marker::PhantomData;

/// The parser that `take` returns: a fixed number of items.
#[derive(Drop)]
pub struct Take<I, E> {
    pub count: usize,
    pub error: PhantomData<(I, E)>,
}

impl<I: Input, E: ParseError<I>> Parser<I> for Take<I, E> {
    type Output = I;

    type Error = E;

    ghost State = { ℕ };

    ghost state = { λ p. p.count };

    ghost Tree = { Slice I.model };

    ghost grammar = { λ count. sliced I.model (take_meaning I.model E.errors I.lack count) };

    ghost word = { λ count. Words.take_of I.model E.errors I.lack count };

    ghost worded = { λ count. Words.take_worded I.model E.errors I.lack count };

    #[inline(always)]
    fn process<OM: OutputMode>(&mut self, input: I) -> PResult<I, I, E> {
        match input.slice_index(self.count) {
            Ok(n) => Ok((input.take_from(n), front::<OM::Output, I>(input, n))),
            Err(needed) if OM::Incomplete::STREAMING => Err(Err::Incomplete(needed)),
            Err(_) => Err(refusal::<OM::Error, I, E>(input, ErrorKind::Eof)),
        }
    }

    #[inline(always)]
    fn width(&self) -> usize {
        self.count
    }

    ghost lawful = { λ count k. take_lawful I.model E.errors I.lack count };
}

impl<I: Input, E: ParseError<I>> StreamParser<I> for Take<I, E> {
    ghost pinned = { λ p k h. slice_pinned I.views };

    ghost steady = { λ count k. take_steady I.model E.errors I.lack count };
}

/// Returns the answer for the result of a comparison with a tag.
#[inline(always)]
pub(crate) fn answer<OM: OutputMode, T: Copy, I: Input + Compare<T>, E: ParseError<I>>(
    input: I,
    tag: T,
    compared: CompareResult,
) -> PResult<I, I, E>
    requires { (ignores_case : Bool) × compares_by I.compares I.compares_no_case ignores_case (I.tag_model tag) (I.model.elements input) compared }
    ensures { (ignores_case : Bool) → compares_by I.compares I.compares_no_case ignores_case (I.tag_model tag) (I.model.elements input) compared →
        ShowsMeaning I.model (IsModelledBy I.model)
        (tag_meaning I.model E.errors I.tag_size (compares_by I.compares I.compares_no_case ignores_case) (I.tag_model tag))
        (modes OM.Output.BUILDS OM.Error.BUILDS OM.Incomplete.STREAMING) input result }
{
    input.known();
    match compared {
        CompareResult::Ok => {
            let n = I::tag_len(tag);
            Ok((input.take_from(n), front::<OM::Output, I>(input, n)))
        }
        CompareResult::Incomplete if OM::Incomplete::STREAMING => {
            let n = I::tag_len(tag) - input.input_len();
            Err(Err::Incomplete(Needed::new(n)))
        }
        CompareResult::Incomplete => Err(refusal::<OM::Error, I, E>(input, ErrorKind::Tag)),
        CompareResult::Error => Err(refusal::<OM::Error, I, E>(input, ErrorKind::Tag)),
    }
}

/// The parser that `tag` returns.
#[derive(Drop)]
pub struct Tag<T, I, E> {
    pub tag: T,
    pub error: PhantomData<(I, E)>,
}

impl<T: Copy, I: Input + Compare<T>, E: ParseError<I>> Parser<I> for Tag<T, I, E> {
    type Output = I;

    type Error = E;

    // Tags that are equal as models are one parser.
    ghost State = { I.Tag };

    ghost state = { λ p. I.tag_model p.tag };

    ghost Tree = { Slice I.model };

    ghost grammar = { λ tag. sliced I.model (tag_meaning I.model E.errors I.tag_size I.compares tag) };

    ghost word = { λ tag. Words.tag_of I.model E.errors I.tag_size I.compares tag };

    ghost worded = { λ tag. Words.tag_worded I.model E.errors I.tag_size I.compares tag };

    #[inline(always)]
    fn process<OM: OutputMode>(&mut self, input: I) -> PResult<I, I, E> {
        let compared = input.compare(self.tag);
        answer::<OM, T, I, E>(input, self.tag, compared)
    }

    ghost lawful = { λ tag k. tag_lawful I.model I.lawful E.errors I.tag_size I.compares I.comparing tag };
}

impl<T: Copy, I: Input + Compare<T>, E: ParseError<I>> StreamParser<I> for Tag<T, I, E> {
    ghost pinned = { λ p k h. slice_pinned I.views };

    ghost steady = { λ tag k. tag_steady I.model I.lawful E.errors I.tag_size I.compares I.comparing tag };
}
