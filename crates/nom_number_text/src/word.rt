//! Words that ignore the case of ASCII letters.
ghost use Rattle.std.specs.Prelude.{◌≡◌};
ghost use Rattle.nom_internal.specs.Prelude.{Slice, slice_pinned, sliced};
ghost use Rattle.nom_number_text.specs.declared.word.Exception.{Exception};
ghost use Rattle.nom_number_text.specs.Exceptions.{IsWordAt, letters_of, word_meaning};
ghost use Rattle.nom_number_text.specs.laws.WordLaws.{word_stream};
ghost use Rattle.nom_number_text.specs.Words as Words;

use nom_character_first::first::first;
use nom_error::answer::{Err, Needed, PResult};
use nom_error::kind::ErrorKind;
use nom_error::mode::{IsStreaming, OutputMode};
use nom_error::value::{ParseError, refusal};
use nom_internal::parser::{Parser, StreamParser};
use nom_internal::slices::before;
use nom_traits::character::AsChar;
use nom_traits::input::Input;
use std::marker::PhantomData;

/// A word for a value that isn't a fraction.
#[derive(Clone, Copy, Debug, PartialEq, Eq)]
pub enum Exception {
    /// `nan`.
    Nan,
    /// `infinity`.
    Infinity,
    /// `inf`.
    Inf,
}

impl Exception {
    /// Returns the letters of the word, in lower case.
    #[inline(always)]
    fn letters(self) -> &'static [u8]
        ensures { result.now ≡ letters_of self }
    {
        match self {
            Exception::Nan => &b"nan"[..],
            Exception::Infinity => &b"infinity"[..],
            Exception::Inf => &b"inf"[..],
        }
    }
}

/// The result of a search for a word at the start of an input.
#[derive(Drop)]
pub enum WordAt<I> {
    /// The word was found; the rest follows it.
    Stands(I),
    /// Something else was found.
    Differs,
    /// The start of the word was found; this many letters are missing.
    Lacks(usize),
}

/// Searches for a word at the start of the input.
#[inline(always)]
fn word_at<I: Input>(input: I, word: &[u8]) -> WordAt<I>
where
    I::Item: AsChar,
    ensures { IsWordAt I.model I.Item.code word.now input result }
{
    input.known();
    let mut rest = input;
    for k in 0..word.len() {
        match first(rest) {
            Some(item) if item.as_char().to_ascii_lowercase() as u32 == word[k] as u32 => {
                rest = rest.take_from(rest.item_len(&item));
            }
            Some(_) => return WordAt::Differs,
            None => return WordAt::Lacks(word.len() - k),
        }
    }
    WordAt::Stands(rest)
}

/// A parser of a word that ignores the case of ASCII letters, and refuses with `Float`.
#[derive(Drop)]
pub struct Word<I, E> {
    pub word: Exception,
    pub error: PhantomData<(I, E)>,
}

impl<I: Input, E: ParseError<I>> Parser<I> for Word<I, E>
where
    I::Item: AsChar,
{
    type Output = I;

    type Error = E;

    ghost State = { Exception };

    ghost state = { λ p. p.word };

    ghost Tree = { Slice I.model };

    ghost grammar = { λ word. sliced I.model (word_meaning I.model I.Item.code E.errors (letters_of word)) };

    ghost word = { λ which. Words.exception_of I.model E.errors I.Item.code which };

    ghost worded = { λ which. Words.exception_worded I.model E.errors I.Item.code which };

    #[inline(always)]
    fn process<OM: OutputMode>(&mut self, input: I) -> PResult<I, I, E> {
        match word_at(input, self.word.letters()) {
            WordAt::Stands(rest) => Ok((rest, before::<OM::Output, I>(input, rest))),
            WordAt::Lacks(letters) if OM::Incomplete::STREAMING => {
                Err(Err::Incomplete(Needed::new(letters)))
            }
            WordAt::Lacks(_) => Err(refusal::<OM::Error, I, E>(input, ErrorKind::Float)),
            WordAt::Differs => Err(refusal::<OM::Error, I, E>(input, ErrorKind::Float)),
        }
    }

    ghost lawful = { λ word k. (word_stream I.model I.Item.code E.errors (letters_of word)).lawful };
}

impl<I: Input, E: ParseError<I>> StreamParser<I> for Word<I, E>
where
    I::Item: AsChar,
{
    ghost pinned = { λ p k h. slice_pinned I.views };

    ghost steady = { λ word k. (word_stream I.model I.Item.code E.errors (letters_of word)).steady };
}
