//! Parsers of one character.
ghost use Rattle.std.specs.Prelude.{◌≡◌, ℕ, true, ◌==◌, Some, None};
ghost use Rattle.std.specs.Char.{len_utf8};
ghost use Rattle.nom_internal.specs.Prelude.{ErrorKind, value_pinned, valued, premised, premised_lawful, premised_steady};
ghost use Rattle.nom_error.specs.declared.kind.ErrorKind.TheVariants as Kind;
ghost use Rattle.nom_character_first.specs.declared.first.Blame.TheVariants.{OfKind, OfChar};
ghost use Rattle.nom_character_first.specs.FirstItem.{char_meaning, satisfy_meaning, anychar_meaning};
ghost use Rattle.nom_character_first.specs.laws.FirstItemLaws.{test_is_fixed, first_item_lawful, first_item_steady};
ghost use Rattle.nom_character.specs.Words as Words;

use crate::predicate::{Any, Is};
use nom_bytes::predicate::Predicate;
use nom_character_first::first::{Blame, first_where};
use nom_error::answer::{Needed, PResult};
use nom_error::kind::ErrorKind;
use nom_error::mode::OutputMode;
use nom_error::value::ParseError;
use nom_internal::parser::{Parser, StreamParser};
use nom_traits::character::AsChar;
use nom_traits::input::Input;
use std::marker::PhantomData;

/// The parser that `char` returns.
#[derive(Drop)]
pub struct Char<I, E> {
    pub wanted: char,
    pub error: PhantomData<(I, E)>,
}

impl<I: Input, E: ParseError<I>> Parser<I> for Char<I, E>
where
    I::Item: AsChar,
{
    type Output = char;

    type Error = E;

    ghost State = { ℕ };

    ghost state = { λ p. p.wanted };

    ghost Tree = { ℕ };

    ghost grammar = { λ wanted. valued (char_meaning I.model I.Item.code E.errors wanted) };

    ghost word = { λ wanted. Words.char_of I.model E.errors I.Item.code wanted };

    ghost worded = { λ wanted. Words.char_worded I.model E.errors I.Item.code wanted };

    #[inline(always)]
    fn process<OM: OutputMode>(&mut self, input: I) -> PResult<I, char, E> {
        let lack = Needed::new(self.wanted.len_utf8());
        let test = Is {
            wanted: self.wanted,
        };
        first_where::<OM, I, Is, E>(input, &test, Blame::OfChar(self.wanted), lack)
    }

    ghost lawful = { λ wanted k. first_item_lawful I.model I.Item.IsValue I.values I.Item.code (λ x b. b ≡ (I.Item.code x == wanted))
        (test_is_fixed I.Item.IsValue (λ x. I.Item.code x == wanted)) (Some (len_utf8 wanted)) E.errors (OfChar wanted) };
}

impl<I: Input, E: ParseError<I>> StreamParser<I> for Char<I, E>
where
    I::Item: AsChar,
{
    ghost pinned = { λ p k h. value_pinned };

    ghost steady = { λ wanted k. first_item_steady I.model I.Item.IsValue I.values I.Item.code (λ x b. b ≡ (I.Item.code x == wanted))
        (test_is_fixed I.Item.IsValue (λ x. I.Item.code x == wanted)) (Some (len_utf8 wanted)) E.errors (OfChar wanted) };
}

/// The parser that `satisfy`, `one_of` and `none_of` return: a character that passes a test.
#[derive(Drop)]
pub struct Satisfy<F, I, E> {
    pub predicate: F,
    pub kind: ErrorKind,
    pub error: PhantomData<(I, E)>,
}

impl<I: Input, P: Predicate<I::Item>, E: ParseError<I>> Parser<I> for Satisfy<P, I, E>
where
    I::Item: AsChar,
{
    type Output = char;

    type Error = E;

    ghost State = { P.State × ErrorKind };

    ghost state = { λ p. (P.state p.predicate, p.kind) };

    ghost Tree = { ℕ };

    ghost grammar = { λ s. valued (premised (P.Runs s.0) (P.IsSound s.0) (satisfy_meaning I.model I.Item.code (P.answers s.0) E.errors s.1)) };

    ghost word = { λ s. Words.satisfy_of I.model E.errors I.Item.code s.1 (P.word s.0) };

    ghost worded = { λ s. Words.satisfy_worded I.model E.errors I.Item.code s.1 (P.worded s.0) };

    #[inline(always)]
    fn process<OM: OutputMode>(&mut self, input: I) -> PResult<I, char, E> {
        first_where::<OM, I, P, E>(
            input,
            &self.predicate,
            Blame::OfKind(self.kind),
            Needed::Unknown,
        )
    }

    ghost lawful = { λ s k. premised_lawful (first_item_lawful I.model I.Item.IsValue I.values I.Item.code (P.answers s.0) (P.fixed s.0 k) None E.errors
        (OfKind s.1)) };
}

impl<I: Input, P: Predicate<I::Item>, E: ParseError<I>> StreamParser<I> for Satisfy<P, I, E>
where
    I::Item: AsChar,
{
    ghost pinned = { λ p k h. value_pinned };

    ghost steady = { λ s k. premised_steady (first_item_steady I.model I.Item.IsValue I.values I.Item.code (P.answers s.0) (P.fixed s.0 k) None E.errors
        (OfKind s.1)) };
}

/// A parser of any single character.
///
/// On an empty input, streaming needs 1, and complete refuses with `Eof`.
#[derive(Drop)]
pub struct AnyChar<I, E> {
    pub error: PhantomData<(I, E)>,
}

impl<I, E> AnyChar<I, E> {
    /// Returns the parser of any single character.
    #[inline(always)]
    pub fn new() -> AnyChar<I, E> {
        AnyChar { error: PhantomData }
    }
}

impl<I: Input, E: ParseError<I>> Parser<I> for AnyChar<I, E>
where
    I::Item: AsChar,
{
    type Output = char;

    type Error = E;

    ghost State = { Unit {0} };

    ghost state = { λ _. tt };

    ghost Tree = { ℕ };

    ghost grammar = { λ _. valued (anychar_meaning I.model I.Item.code E.errors) };

    ghost word = { λ _. Words.anychar_of I.model E.errors I.Item.code };

    ghost worded = { λ _. Words.anychar_worded I.model E.errors I.Item.code };

    #[inline(always)]
    fn process<OM: OutputMode>(&mut self, input: I) -> PResult<I, char, E> {
        let lack = Needed::new(1);
        first_where::<OM, I, Any, E>(input, &Any, Blame::OfKind(ErrorKind::Eof), lack)
    }

    ghost lawful = { λ _ k. first_item_lawful I.model I.Item.IsValue I.values I.Item.code (λ x b. b ≡ true) (test_is_fixed I.Item.IsValue (λ x. true)) (Some 1)
        E.errors (OfKind Kind.Eof) };
}

impl<I: Input, E: ParseError<I>> StreamParser<I> for AnyChar<I, E>
where
    I::Item: AsChar,
{
    ghost pinned = { λ p k h. value_pinned };

    ghost steady = { λ _ k. first_item_steady I.model I.Item.IsValue I.values I.Item.code (λ x b. b ≡ true) (test_is_fixed I.Item.IsValue (λ x. true)) (Some 1)
        E.errors (OfKind Kind.Eof) };
}
