//! Tags that ignore the case of ASCII letters.
ghost use Rattle.nom_internal.specs.Prelude.{Slice, slice_pinned, sliced};
ghost use Rattle.nom_bytes.specs.Tags.{tag_meaning};
ghost use Rattle.nom_bytes.specs.laws.TagLaws.{tag_lawful, tag_steady};
ghost use Rattle.nom_bytes.specs.Words as Words;

use crate::leaf::answer;
use nom_error::answer::PResult;
use nom_error::mode::OutputMode;
use nom_error::value::ParseError;
use nom_internal::parser::{Parser, StreamParser};
use nom_traits::compare::Compare;
use nom_traits::input::Input;
use std::marker::PhantomData;

/// The parser that `tag_no_case` returns.
#[derive(Drop)]
pub struct TagNoCase<T, I, E> {
    pub tag: T,
    pub error: PhantomData<(I, E)>,
}

impl<T: Copy, I: Input + Compare<T>, E: ParseError<I>> Parser<I> for TagNoCase<T, I, E> {
    type Output = I;

    type Error = E;

    // Tags that are equal as models are one parser.
    ghost State = { I.Tag };

    ghost state = { λ p. I.tag_model p.tag };

    ghost Tree = { Slice I.model };

    ghost grammar = { λ tag. sliced I.model (tag_meaning I.model E.errors I.tag_size I.compares_no_case tag) };

    ghost word = { λ tag. Words.tag_of I.model E.errors I.tag_size I.compares_no_case tag };

    ghost worded = { λ tag. Words.tag_worded I.model E.errors I.tag_size I.compares_no_case tag };

    #[inline(always)]
    fn process<OM: OutputMode>(&mut self, input: I) -> PResult<I, I, E> {
        let compared = input.compare_no_case(self.tag);
        answer::<OM, T, I, E>(input, self.tag, compared)
    }

    ghost lawful = { λ tag k. tag_lawful I.model I.lawful E.errors I.tag_size I.compares_no_case I.comparing_no_case tag };
}

impl<T: Copy, I: Input + Compare<T>, E: ParseError<I>> StreamParser<I> for TagNoCase<T, I, E> {
    ghost pinned = { λ p k h. slice_pinned I.views };

    ghost steady = { λ tag k. tag_steady I.model I.lawful E.errors I.tag_size I.compares_no_case I.comparing_no_case tag };
}
