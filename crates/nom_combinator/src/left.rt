//! Parsers of the remaining input, the same in both modes.
ghost use Rattle.std.specs.Prelude.{◌≡◌, ℕ};
ghost use Rattle.nom_internal.specs.Prelude.{OfRest, Slice, sliced, valued};
ghost use Rattle.nom_combinator.specs.Ends.{eof_meaning, rest_meaning, rest_len_meaning};
ghost use Rattle.nom_combinator.specs.laws.AllLaws.{eof_lawful, rest_lawful, rest_len_lawful};
ghost use Rattle.nom_combinator.specs.Words as Words;

use nom_error::answer::PResult;
use nom_error::kind::ErrorKind;
use nom_error::mode::OutputMode;
use nom_error::value::{ParseError, refusal};
use nom_internal::built::built;
use nom_internal::parser::Parser;
use nom_traits::input::Input;
use std::marker::PhantomData;

/// The parser of the end of the input.
#[derive(Drop)]
pub struct Eof<I, E> {
    pub error: PhantomData<(I, E)>,
}

impl<I, E> Eof<I, E> {
    /// Returns the parser of the end of the input.
    #[inline(always)]
    pub fn new() -> Eof<I, E> {
        Eof { error: PhantomData }
    }
}

impl<I: Input, E: ParseError<I>> Parser<I> for Eof<I, E> {
    type Output = I;

    type Error = E;

    ghost State = { Unit {0} };

    ghost state = { λ _. tt };

    ghost Tree = { Slice I.model };

    ghost grammar = { λ _. sliced I.model (eof_meaning I.model E.errors) };

    ghost word = { λ _. Words.eof_of I.model E.errors };

    ghost worded = { λ _. Words.eof_worded I.model E.errors };

    /// The rest is the whole input.
    ghost SideCondition = { λ _ _ _ i. OfRest (λ rest. rest ≡ i) };

    #[inline(always)]
    fn process<OM: OutputMode>(&mut self, input: I) -> PResult<I, I, E> {
        if input.input_len() == 0 {
            input.known();
            Ok((input, built::<OM::Output, I>(input)))
        } else {
            Err(refusal::<OM::Error, I, E>(input, ErrorKind::Eof))
        }
    }

    ghost lawful = { λ _ k. eof_lawful I.model E.errors };
}

/// The parser of all the remaining input.
#[derive(Drop)]
pub struct Rest<I, E> {
    pub error: PhantomData<(I, E)>,
}

impl<I, E> Rest<I, E> {
    /// Returns the parser of all the remaining input.
    #[inline(always)]
    pub fn new() -> Rest<I, E> {
        Rest { error: PhantomData }
    }
}

impl<I: Input, E: ParseError<I>> Parser<I> for Rest<I, E> {
    type Output = I;

    type Error = E;

    ghost State = { Unit {0} };

    ghost state = { λ _. tt };

    ghost Tree = { Slice I.model };

    ghost grammar = { λ _. sliced I.model (rest_meaning I.model) };

    ghost word = { λ _. Words.rest_of I.model };

    ghost worded = { λ _. Words.rest_worded I.model };

    #[inline(always)]
    fn process<OM: OutputMode>(&mut self, input: I) -> PResult<I, I, E> {
        input.known();
        Ok((
            input.take_from(input.input_len()),
            built::<OM::Output, I>(input),
        ))
    }

    ghost lawful = { λ _ k. rest_lawful I.model E };
}

/// The parser of the length of the remaining input.
#[derive(Drop)]
pub struct RestLen<I, E> {
    pub error: PhantomData<(I, E)>,
}

impl<I, E> RestLen<I, E> {
    /// Returns the parser of the length of the remaining input.
    #[inline(always)]
    pub fn new() -> RestLen<I, E> {
        RestLen { error: PhantomData }
    }
}

impl<I: Input, E: ParseError<I>> Parser<I> for RestLen<I, E> {
    type Output = usize;

    type Error = E;

    ghost State = { Unit {0} };

    ghost state = { λ _. tt };

    ghost Tree = { ℕ };

    ghost grammar = { λ _. valued (rest_len_meaning I.model) };

    ghost word = { λ _. Words.rest_len_of I.model };

    ghost worded = { λ _. Words.rest_len_worded I.model };

    /// The rest is the whole input.
    ghost SideCondition = { λ _ _ _ i. OfRest (λ rest. rest ≡ i) };

    #[inline(always)]
    fn process<OM: OutputMode>(&mut self, input: I) -> PResult<I, usize, E> {
        input.known();
        Ok((input, built::<OM::Output, usize>(input.input_len())))
    }

    ghost lawful = { λ _ k. rest_len_lawful I.model E };
}
