//! Shapes of decimal fractions.
ghost use Rattle.std.specs.Prelude.{◌≡◌};
ghost use Rattle.nom_internal.specs.Prelude.{Slice, slice_pinned, sliced};
ghost use Rattle.nom_number_text.specs.Floats.{float_meaning};
ghost use Rattle.nom_number_text.specs.laws.FloatLaws.{float_stream};
ghost use Rattle.nom_number_text.specs.Words as Words;

use nom_branch::{Choice, alt};
use nom_character::{Char, char, digit1};
use nom_combinator::{cut, opt, recognize};
use nom_error::answer::PResult;
use nom_error::mode::OutputMode;
use nom_error::value::ParseError;
use nom_internal::parser::{Parser, StreamParser};
use nom_sequence::pair;
use nom_traits::character::AsChar;
use nom_traits::input::Input;
use std::marker::PhantomData;

/// Returns a parser of one of two characters.
#[inline(always)]
pub(crate) fn either<I, E>(first: char, second: char) -> Choice<(Char<I, E>, Char<I, E>)>
    ensures first { result.parsers.0.wanted ≡ first }
    ensures second { result.parsers.1.wanted ≡ second }
{
    alt((char(first), char(second)))
}

/// The parser that `recognize_float` returns: the shape of a decimal fraction.
#[derive(Drop)]
pub struct RecognizeFloat<I, E> {
    pub error: PhantomData<(I, E)>,
}

impl<I: Input, E: ParseError<I>> Parser<I> for RecognizeFloat<I, E>
where
    I::Item: AsChar,
{
    type Output = I;

    type Error = E;

    ghost State = { Unit {0} };

    ghost state = { λ _. tt };

    ghost Tree = { Slice I.model };

    ghost grammar = { λ _. sliced I.model (float_meaning I.model I.Item.code E.errors) };

    ghost word = { λ _. Words.recognize_float_of I.model E.errors I.Item.code };

    ghost worded = { λ _. Words.recognize_float_worded I.model E.errors I.Item.code };

    #[inline(always)]
    fn process<OM: OutputMode>(&mut self, input: I) -> PResult<I, I, E> {
        let whole = pair(digit1(), opt(pair(char('.'), opt(digit1()))));
        let decimal = alt((recognize(whole), recognize(pair(char('.'), digit1()))));
        let digits = pair(opt(either('+', '-')), cut(digit1()));
        let exponent = recognize(pair(either('e', 'E'), digits));
        let mut shape = recognize(pair(opt(either('+', '-')), pair(decimal, opt(exponent))));
        shape.process::<OM>(input)
    }

    ghost lawful = { λ _ k. (float_stream I.model I.lawful I.Item.IsValue I.values I.Item.code E.errors).lawful };
}

impl<I: Input, E: ParseError<I>> StreamParser<I> for RecognizeFloat<I, E>
where
    I::Item: AsChar,
{
    ghost pinned = { λ p k h. slice_pinned I.views };

    ghost steady = { λ _ k. (float_stream I.model I.lawful I.Item.IsValue I.values I.Item.code E.errors).steady };
}
