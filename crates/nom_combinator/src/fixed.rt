//! Parsers whose answer is fixed, whatever the input.
ghost use Rattle.std.specs.Prelude.{◌≡◌};
ghost use Rattle.nom_internal.specs.Cloned.{ClonesConsistently, clones_pinned};
ghost use Rattle.nom_internal.specs.Prelude.{OfRest, value_pinned, valued};
ghost use Rattle.nom_combinator.specs.Ends.{clone_meaning, fail_meaning};
ghost use Rattle.nom_combinator.specs.laws.EndLaws.{clone_lawful, clone_steady, fail_lawful, fail_steady};
ghost use Rattle.nom_combinator.specs.Words as Words;

use nom_error::answer::{Err, PResult};
use nom_error::kind::ErrorKind;
use nom_error::mode::OutputMode;
use nom_error::value::{ParseError, refusal};
use nom_internal::built::cloned;
use nom_internal::parser::{Parser, StreamParser};
use nom_traits::input::Items;
use nom_traits::view::Viewed;
use std::marker::PhantomData;

/// The parser that `success` returns. It returns a clone of its value at once.
#[derive(Drop)]
pub struct Success<O, I, E> {
    pub value: O,
    pub of: PhantomData<(I, E)>,
}

impl<I: Items, O: Clone, E: ParseError<I>> Parser<I> for Success<O, I, E> {
    type Output = O;

    type Error = E;

    ghost State = { O };

    ghost state = { λ p. p.value };

    ghost Tree = { O };

    // a clone of the value
    ghost grammar = { λ value. record {
      meaning = clone_meaning value (O.is_infallible value);
      IsOutput = λ _. O.is_clone value;
    } };

    ghost word = { λ value. Words.success_of O.is_clone value (O.is_infallible value) };

    ghost worded = { λ value. Words.success_worded O.is_clone value (O.is_infallible value) };

    /// The rest is the whole input.
    ghost SideCondition = { λ _ _ _ i. OfRest (λ rest. rest ≡ i) };

    #[inline(always)]
    fn process<OM: OutputMode>(&mut self, input: I) -> PResult<I, O, E> {
        input.known();
        match cloned::<OM::Output, O>(&self.value) {
            Ok(output) => Ok((input, output)),
            Err(_) => Err(Err::OutOfMemory),
        }
    }

    ghost lawful = { λ value k. clone_lawful E I.model value (O.is_infallible value) };
}

impl<I: Items, O: Clone + Viewed, E: ParseError<I>> StreamParser<I> for Success<O, I, E> {
    ghost Pins = { λ p. ClonesConsistently O.view O.is_clone p.value };

    ghost pinned = { λ p k h. clones_pinned h };

    ghost steady = { λ value k. clone_steady E I.model value (O.is_infallible value) };
}

/// The parser that `fail` returns. It refuses.
#[derive(Drop)]
pub struct Fail<O, I, E> {
    pub of: PhantomData<(O, I, E)>,
}

impl<I: Items, O: Drop, E: ParseError<I>> Parser<I> for Fail<O, I, E> {
    type Output = O;

    type Error = E;

    ghost State = { Unit {0} };

    ghost state = { λ _. tt };

    ghost Tree = { O };

    ghost grammar = { λ _. valued (fail_meaning E.errors) };

    ghost word = { λ _. Words.fail_of E.errors };

    ghost worded = { λ _. Words.fail_worded E.errors };

    #[inline(always)]
    fn process<OM: OutputMode>(&mut self, input: I) -> PResult<I, O, E> {
        Err(refusal::<OM::Error, I, E>(input, ErrorKind::Fail))
    }

    ghost lawful = { λ _ k. fail_lawful O I.model E.errors };
}

impl<I: Items, O: Drop + Viewed, E: ParseError<I>> StreamParser<I> for Fail<O, I, E> {
    ghost pinned = { λ p k h. value_pinned };

    ghost steady = { λ _ k. fail_steady O I.model E.errors };
}
