//! Runs of the items of a class.
ghost use Rattle.std.specs.Prelude.{Option, Some, None, MatchOption};
ghost use Rattle.nom_internal.specs.Prelude.{modes, Refuses, ErrorKind, IsInside, IsOutside, Slice, IsModelledBy, ShowsMeaning, slice_pinned, sliced};
ghost use Rattle.nom_error.specs.declared.kind.ErrorKind.TheVariants as Kind;
ghost use Rattle.nom_traits.specs.declared.character.AsciiClass.{AsciiClass};
ghost use Rattle.nom_traits.specs.declared.character.AsciiClass.TheVariants as Class;
ghost use Rattle.nom_traits.specs.Splits.{Splits, FrontBuilt, IsRunLength, IsRunOpen};
ghost use Rattle.nom_character.specs.ClassRuns.{class_meaning, class_lawful, class_steady, is_wanted, wanted_error, wanted_grows};
ghost use Rattle.nom_character.specs.Words as Words;

use crate::scan::first_outside;
use nom_error::answer::{Err, Needed, PResult};
use nom_error::kind::ErrorKind;
use nom_error::mode::{IsStreaming, OutputMode};
use nom_error::value::{ParseError, refusal};
use nom_internal::parser::{Parser, StreamParser};
use nom_traits::character::{AsChar, AsciiClass};
use nom_traits::input::Input;
use nom_traits::split::front_built;
use std::marker::PhantomData;

/// Returns the length of the run of items in the class, or `None` if more items may come and all are in it.
#[inline(always)]
fn class_len<I: Input, S: IsStreaming>(input: I, class: AsciiClass) -> Option<usize>
where
    I::Item: AsChar,
    ensures { MatchOption result
        (IsRunOpen I.model (λ x. IsInside class (I.Item.code x)) (λ x. IsOutside class (I.Item.code x)) S.STREAMING input)
        (IsRunLength I.model (λ x. IsInside class (I.Item.code x)) (λ x. IsOutside class (I.Item.code x)) S.STREAMING input) }
{
    match first_outside(input, class) {
        Some(n) => Some(n),
        None if S::STREAMING => None,
        None => Some(input.input_len()),
    }
}

/// Accepts the run of items in the class. If it is empty, it is refused with the kind in `wanted`, if there is one.
#[inline(always)]
fn class_split<OM: OutputMode, I: Input, E: ParseError<I>>(
    input: I,
    class: AsciiClass,
    wanted: Option<ErrorKind>,
) -> PResult<I, I, E>
where
    I::Item: AsChar,
    ensures { Splits I.model (λ x. IsInside class (I.Item.code x)) (λ x. IsOutside class (I.Item.code x)) OM.Incomplete.STREAMING input (is_wanted wanted)
        (FrontBuilt I.model OM.Output.BUILDS)
        (Refuses (wanted_error E.errors wanted input) (wanted_grows E.errors wanted) OM.Error.BUILDS) result }
{
    match class_len::<I, OM::Incomplete>(input, class) {
        Some(n) => {
            if n == 0 {
                if let Some(kind) = wanted {
                    return Err(refusal::<OM::Error, I, E>(input, kind));
                }
            }
            Ok((input.take_from(n), front_built::<OM::Output, I>(input, n)))
        }
        None => Err(Err::Incomplete(Needed::new(1))),
    }
}

/// Accepts the run of items in the class: one or more if `wanted` has the kind for a refusal, and otherwise
/// zero or more.
#[inline(always)]
pub(crate) fn class_run<OM: OutputMode, I: Input, E: ParseError<I>>(
    input: I,
    class: AsciiClass,
    wanted: Option<ErrorKind>,
) -> PResult<I, I, E>
where
    I::Item: AsChar,
    ensures { ShowsMeaning I.model (IsModelledBy I.model) (class_meaning I.model I.Item.code E.errors class wanted)
        (modes OM.Output.BUILDS OM.Error.BUILDS OM.Incomplete.STREAMING) input result }
{
    class_split::<OM, I, E>(input, class, wanted)
}

/// A parser of the items of a class: one or more if `wanted` has a kind, and otherwise zero or more.
#[derive(Drop)]
pub struct ClassRun<I, E> {
    pub class: AsciiClass,
    pub wanted: Option<ErrorKind>,
    pub error: PhantomData<(I, E)>,
}

impl<I: Input, E: ParseError<I>> Parser<I> for ClassRun<I, E>
where
    I::Item: AsChar,
{
    type Output = I;

    type Error = E;

    ghost State = { AsciiClass × Option ErrorKind };

    ghost state = { λ p. (p.class, p.wanted) };

    ghost Tree = { Slice I.model };

    ghost grammar = { λ s. sliced I.model (class_meaning I.model I.Item.code E.errors s.0 s.1) };

    ghost word = { λ s. Words.class_of I.model E.errors I.Item.code s.0 s.1 };

    ghost worded = { λ s. Words.class_worded I.model E.errors I.Item.code s.0 s.1 };

    #[inline(always)]
    fn process<OM: OutputMode>(&mut self, input: I) -> PResult<I, I, E> {
        class_run::<OM, I, E>(input, self.class, self.wanted)
    }

    ghost lawful = { λ s k. class_lawful I.model I.Item.IsValue I.values I.Item.code E.errors s.0 s.1 };
}

impl<I: Input, E: ParseError<I>> StreamParser<I> for ClassRun<I, E>
where
    I::Item: AsChar,
{
    ghost pinned = { λ p k h. slice_pinned I.views };

    ghost steady = { λ s k. class_steady I.model I.Item.IsValue I.values I.Item.code E.errors s.0 s.1 };
}

/// The parser that `digit1` returns: one or more decimal digits.
#[derive(Drop)]
pub struct Digit1<I, E> {
    pub error: PhantomData<(I, E)>,
}

impl<I: Input, E: ParseError<I>> Parser<I> for Digit1<I, E>
where
    I::Item: AsChar,
{
    type Output = I;

    type Error = E;

    ghost State = { Unit {0} };

    ghost state = { λ _. tt };

    ghost Tree = { Slice I.model };

    ghost grammar = { λ _. sliced I.model (class_meaning I.model I.Item.code E.errors Class.Digit (Some Kind.Digit)) };

    ghost word = { λ _. Words.class_of I.model E.errors I.Item.code Class.Digit (Some Kind.Digit) };

    ghost worded = { λ _. Words.class_worded I.model E.errors I.Item.code Class.Digit (Some Kind.Digit) };

    #[inline(always)]
    fn process<OM: OutputMode>(&mut self, input: I) -> PResult<I, I, E> {
        class_run::<OM, I, E>(input, AsciiClass::Digit, Some(ErrorKind::Digit))
    }

    ghost lawful = { λ _ k. class_lawful I.model I.Item.IsValue I.values I.Item.code E.errors Class.Digit (Some Kind.Digit) };
}

impl<I: Input, E: ParseError<I>> StreamParser<I> for Digit1<I, E>
where
    I::Item: AsChar,
{
    ghost pinned = { λ p k h. slice_pinned I.views };

    ghost steady = { λ _ k. class_steady I.model I.Item.IsValue I.values I.Item.code E.errors Class.Digit (Some Kind.Digit) };
}

/// The parser that `multispace0` returns: spaces, tabs and ends of lines.
#[derive(Drop)]
pub struct MultiSpace0<I, E> {
    pub error: PhantomData<(I, E)>,
}

impl<I: Input, E: ParseError<I>> Parser<I> for MultiSpace0<I, E>
where
    I::Item: AsChar,
{
    type Output = I;

    type Error = E;

    ghost State = { Unit {0} };

    ghost state = { λ _. tt };

    ghost Tree = { Slice I.model };

    ghost grammar = { λ _. sliced I.model (class_meaning I.model I.Item.code E.errors Class.MultiSpace None) };

    ghost word = { λ _. Words.class_of I.model E.errors I.Item.code Class.MultiSpace None };

    ghost worded = { λ _. Words.class_worded I.model E.errors I.Item.code Class.MultiSpace None };

    #[inline(always)]
    fn process<OM: OutputMode>(&mut self, input: I) -> PResult<I, I, E> {
        class_run::<OM, I, E>(input, AsciiClass::MultiSpace, None)
    }

    ghost lawful = { λ _ k. class_lawful I.model I.Item.IsValue I.values I.Item.code E.errors Class.MultiSpace None };
}

impl<I: Input, E: ParseError<I>> StreamParser<I> for MultiSpace0<I, E>
where
    I::Item: AsChar,
{
    ghost pinned = { λ p k h. slice_pinned I.views };

    ghost steady = { λ _ k. class_steady I.model I.Item.IsValue I.values I.Item.code E.errors Class.MultiSpace None };
}
