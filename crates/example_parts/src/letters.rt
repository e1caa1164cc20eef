//! A leaf parser of a user's own, in four steps: what it does by mode and input (`letters`, in
//! `specs/Letters.antt`); the laws of that (`letter_laws`), which give those of its meaning; `process`; and
//! the two implementations.
ghost use Rattle.std.specs.Prelude.{◌≡◌, ℕ, [], MatchOption};
ghost use Rattle.nom_internal.specs.Prelude.{value_pinned, valued};
ghost use Rattle.example_parts.specs.Letters.{BeginsWith, letter_lawful, letter_meaning, letter_steady};
ghost use Rattle.std.proofs.Common.{refl};
ghost use Rattle.nom_internal.specs.Word.{word};

use nom::error::{ErrorKind, ParseError};
use nom::{
    AsChar, Err, Input, IsStreaming, Mode, Needed, OutputMode, PResult, Parser, StreamParser,
};
use nom_error::value::refusal;
use std::marker::PhantomData;

/// One ASCII letter, as its number; made by `one_letter`.
#[derive(Drop)]
pub struct Letter<I, E> {
    error: PhantomData<(I, E)>,
}

/// The first item of an input of bytes, where it is an ASCII letter, as its number.
///
/// Any other item is refused with `Char`. Where there is none, streaming asks for 1, and complete
/// refuses.
pub fn one_letter<I, E>() -> Letter<I, E> {
    Letter { error: PhantomData }
}

/// The first item.
fn first<I: Input<Item = u8>>(input: I) -> Option<u8>
    ensures { MatchOption result (I.model.elements input ≡ []) (BeginsWith (I.model.elements input)) }
{
    input.iter_elements().next()
}

impl<I: Input<Item = u8>, E: ParseError<I>> Parser<I> for Letter<I, E> {
    type Output = u8;

    type Error = E;

    ghost State = { Unit {0} };

    ghost state = { λ _. tt };

    ghost Tree = { ℕ };

    ghost grammar = { λ _. valued (letter_meaning I.model E.errors) };

    ghost word = { λ _. word (valued (letter_meaning I.model E.errors)) };

    ghost worded = { λ _. refl };

    // A letter is its own tree.

    fn process<OM: OutputMode>(&mut self, input: I) -> PResult<I, u8, E> {
        match first(input) {
            Some(byte) => {
                if !byte.is_alpha() {
                    return Err(refusal::<OM::Error, I, E>(input, ErrorKind::Char));
                }
                let rest = input.take_from(input.item_len(&byte));
                Ok((rest, OM::Output::bind(move || byte)))
            }
            None if OM::Incomplete::STREAMING => Err(Err::Incomplete(Needed::new(1))),
            None => Err(refusal::<OM::Error, I, E>(input, ErrorKind::Char)),
        }
    }

    ghost lawful = { λ _ k. letter_lawful I.model E.errors };
}

impl<I: Input<Item = u8>, E: ParseError<I>> StreamParser<I> for Letter<I, E> {
    ghost pinned = { λ p k h. value_pinned };

    ghost steady = { λ _ k. letter_steady I.model E.errors };
}
