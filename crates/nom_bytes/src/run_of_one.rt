//! Runs of at least one item.
ghost use Rattle.std.specs.Prelude.{◌≡◌, None, true, false, MatchOption};
ghost use Rattle.nom_internal.specs.Prelude.{ErrorKind, Refuses, Slice, slice_pinned, sliced, premised, premised_lawful, premised_steady};
ghost use Rattle.nom_traits.specs.Splits.{FrontBuilt, IsRunLength, IsRunOpen, Splits};
ghost use Rattle.nom_bytes.specs.ParsedRuns.{run1_meaning};
ghost use Rattle.nom_bytes.specs.laws.RunLaws.{run_lawful, run_steady};
ghost use Rattle.nom_bytes.specs.Words as Words;

use crate::predicate::{Outside, Predicate, Unless, Where, Within};
use nom_error::answer::{Err, Needed, PResult};
use nom_error::kind::ErrorKind;
use nom_error::mode::{IsStreaming, OutputMode};
use nom_error::value::{ParseError, refusal};
use nom_internal::parser::{Parser, StreamParser};
use nom_traits::input::Input;
use nom_traits::split::front_built;
use std::marker::PhantomData;

/// Returns the length of the run of items that meet the test, or `None` if more items may come and all meet
/// it.
#[inline(always)]
fn met_len<I: Input, S: IsStreaming, P: Predicate<I::Item>>(
    predicate: &P,
    input: I,
) -> Option<usize>
    requires { P.Runs (P.state predicate.now) }
    ensures { MatchOption result
        (IsRunOpen I.model (λ x. P.answers (P.state predicate.now) x true) (λ x. P.answers (P.state predicate.now) x false) S.STREAMING input)
        (IsRunLength I.model (λ x. P.answers (P.state predicate.now) x true) (λ x. P.answers (P.state predicate.now) x false) S.STREAMING input) }
{
    match predicate.end(input) {
        Some(n) => Some(n),
        None if S::STREAMING => None,
        None => Some(input.input_len()),
    }
}

/// Accepts the run of items that meet the test, and refuses with `kind` if it is empty.
#[inline(always)]
fn split1<OM: OutputMode, I: Input, P: Predicate<I::Item>, E: ParseError<I>>(
    predicate: &P,
    kind: ErrorKind,
    input: I,
) -> PResult<I, I, E>
    requires { P.Runs (P.state predicate.now) }
    ensures { Splits I.model (λ x. P.answers (P.state predicate.now) x true)
        (λ x. P.answers (P.state predicate.now) x false) OM.Incomplete.STREAMING input true (FrontBuilt I.model OM.Output.BUILDS)
        (Refuses (E.errors.of_kind input kind) E.errors.grows OM.Error.BUILDS) result }
{
    match met_len::<I, OM::Incomplete, P>(predicate, input) {
        Some(n) if n == 0 => Err(refusal::<OM::Error, I, E>(input, kind)),
        Some(n) => Ok((input.take_from(n), front_built::<OM::Output, I>(input, n))),
        None => Err(Err::Incomplete(Needed::new(1))),
    }
}

/// The parser that `take_while1`, `take_till1`, `is_a` and `is_not` return: a run of at least one item.
#[derive(Drop)]
pub struct SplitPosition1<P, I, E> {
    pub predicate: P,
    pub kind: ErrorKind,
    pub error: PhantomData<(I, E)>,
}

impl<I: Input, P: Predicate<I::Item>, E: ParseError<I>> Parser<I> for SplitPosition1<P, I, E> {
    type Output = I;

    type Error = E;

    ghost State = { P.State × ErrorKind };

    ghost state = { λ p. (P.state p.predicate, p.kind) };

    ghost Tree = { Slice I.model };

    ghost grammar = { λ s. sliced I.model (premised (P.Runs s.0) (P.IsSound s.0) (run1_meaning I.model (P.answers s.0) E.errors s.1)) };

    ghost word = { λ s. Words.run1_of I.model E.errors s.1 (P.word s.0) };

    ghost worded = { λ s. Words.run1_worded I.model E.errors s.1 (P.worded s.0) };

    #[inline(always)]
    fn process<OM: OutputMode>(&mut self, input: I) -> PResult<I, I, E> {
        split1::<OM, I, P, E>(&self.predicate, self.kind, input)
    }

    ghost lawful = { λ s k. premised_lawful (run_lawful I.model I.Item.IsValue I.values (P.answers s.0) (P.fixed s.0 k) None 1
        (λ i. E.errors.of_kind i s.1) E.errors.grows) };
}

impl<I: Input, P: Predicate<I::Item>, E: ParseError<I>> StreamParser<I>
    for SplitPosition1<P, I, E> {
    ghost pinned = { λ p k h. slice_pinned I.views };

    ghost steady = { λ s k. premised_steady (run_steady I.model I.Item.IsValue I.values (P.answers s.0) (P.fixed s.0 k) None 1
        (λ i. E.errors.of_kind i s.1) E.errors.grows) };
}

/// Accepts the longest run of items that meet the test, at least one.
///
/// It works as `take_while`, but refuses with `TakeWhile1` if the first item doesn't meet the test. In
/// complete mode it refuses an empty input the same way.
#[inline(always)]
pub fn take_while1<F, I, E>(test: F) -> SplitPosition1<Where<F>, I, E>
    ensures predicate { result.predicate.test ≡ test }
    ensures kind { result.kind ≡ ErrorKind.TakeWhile1 }
{
    SplitPosition1 {
        predicate: Where { test },
        kind: ErrorKind::TakeWhile1,
        error: PhantomData,
    }
}

/// Accepts the items before the first one that meets the test, at least one.
///
/// It works as `take_till`, but refuses with `TakeTill1` if the first item meets the test. In complete mode
/// it refuses an empty input the same way.
#[inline(always)]
pub fn take_till1<F, I, E>(test: F) -> SplitPosition1<Unless<F>, I, E>
    ensures predicate { result.predicate.test ≡ test }
    ensures kind { result.kind ≡ ErrorKind.TakeTill1 }
{
    SplitPosition1 {
        predicate: Unless { test },
        kind: ErrorKind::TakeTill1,
        error: PhantomData,
    }
}

/// Accepts the longest run of items that are in the set, at least one.
///
/// The set is a list of bytes (`&[u8]` or `[u8; N]`) or of characters (`&[char]` or `&str`). It may also be
/// any other type in which `FindToken` finds items. If the first item isn't in the set, the parser refuses
/// with `IsA`.
///
/// If all items are in the set, streaming needs 1 more, and complete accepts the whole input. On an empty
/// input, streaming needs 1 item, and complete refuses with `IsA`.
#[inline(always)]
pub fn is_a<T, I, E>(list: T) -> SplitPosition1<Within<T>, I, E>
    ensures predicate { result.predicate.list ≡ list }
    ensures kind { result.kind ≡ ErrorKind.IsA }
{
    SplitPosition1 {
        predicate: Within { list },
        kind: ErrorKind::IsA,
        error: PhantomData,
    }
}

/// Accepts the items before the first one that is in the set, at least one.
///
/// The set is a list, as for `is_a`. If the first item is in the set, the parser refuses with `IsNot`.
///
/// If no item is in the set, streaming needs 1 more, and complete accepts the whole input. On an empty input,
/// streaming needs 1 item, and complete refuses with `IsNot`.
#[inline(always)]
pub fn is_not<T, I, E>(list: T) -> SplitPosition1<Outside<T>, I, E>
    ensures predicate { result.predicate.list ≡ list }
    ensures kind { result.kind ≡ ErrorKind.IsNot }
{
    SplitPosition1 {
        predicate: Outside { list },
        kind: ErrorKind::IsNot,
        error: PhantomData,
    }
}
