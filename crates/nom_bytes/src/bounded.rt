//! Runs with a lower and an upper bound.
ghost use Rattle.std.specs.Prelude.{◌≡◌, ◌-◌, ℕ, max, Some, MatchOption};
ghost use Rattle.nom_error.specs.declared.kind.ErrorKind.TheVariants as Kind;
ghost use Rattle.nom_internal.specs.Prelude.{Slice, slice_pinned, sliced, premised, premised_lawful, premised_steady};
ghost use Rattle.nom_bytes.specs.ParsedRuns.{Reaches, bounded_meaning};
ghost use Rattle.nom_bytes.specs.laws.RunLaws.{run_lawful, run_steady};
ghost use Rattle.nom_bytes.specs.Words as Words;

use crate::predicate::{Predicate, Where};
use nom_error::answer::{Err, Needed, PResult};
use nom_error::kind::ErrorKind;
use nom_error::mode::{IsStreaming, OutputMode};
use nom_error::value::{ParseError, refusal};
use nom_internal::parser::{Parser, StreamParser};
use nom_internal::slices::front;
use nom_traits::input::Input;
use std::marker::PhantomData;

/// Returns the length of the run, of at most `most` items, and its number of items.
///
/// The length is `None` if the run is the whole input.
#[inline(always)]
fn bounded_run<I: Input, P: Predicate<I::Item>>(
    input: I,
    predicate: &P,
    most: usize,
) -> (Option<usize>, usize)
    requires { P.Runs (P.state predicate.now) }
    ensures { Reaches I.model (P.answers (P.state predicate.now)) most input result.0 result.1 }
{
    let mut count = 0usize;
    for (index, item) in input.iter_indices() {
        // Each item that is given goes to the test, since an item may not be one to let go.
        let meets = predicate.meets(item);
        if count == most || !meets {
            return (Some(index), count);
        }
        count += 1;
    }
    (None, count)
}

/// Returns the length of the run, and how many items are enough: `least` if an item follows, and `m` at the end of
/// the input.
// One end for both, so that the compiler doesn't keep two.
#[inline(always)]
fn run_end(place: Option<usize>, whole: usize, least: usize, m: usize) -> (usize, usize)
    ensures { MatchOption place (result ≡ (whole, m)) (λ n. result ≡ (n, least)) }
{
    match place {
        Some(n) => (n, least),
        None => (whole, m),
    }
}

/// Returns how much `length` is short of `least`, and at least 1.
#[inline(always)]
fn lack(least: usize, length: usize) -> usize
    ensures { result ≡ max 1 (least - length) }
{
    if least > length { least - length } else { 1 }
}

/// The parser that `take_while_m_n` returns: a run of at least `m` and at most `n` items.
#[derive(Drop)]
pub struct TakeWhileMN<P, I, E> {
    pub m: usize,
    pub n: usize,
    pub predicate: P,
    pub error: PhantomData<(I, E)>,
}

impl<I: Input, P: Predicate<I::Item>, E: ParseError<I>> Parser<I> for TakeWhileMN<P, I, E> {
    type Output = I;

    type Error = E;

    ghost State = { P.State × ℕ × ℕ };

    ghost state = { λ p. (P.state p.predicate, p.m, p.n) };

    ghost Tree = { Slice I.model };

    ghost grammar = { λ s. sliced I.model (premised (P.Runs s.0) (P.IsSound s.0) (bounded_meaning I.model (P.answers s.0) E.errors s.1 s.2)) };

    ghost word = { λ s. Words.bounded_of I.model E.errors s.1 s.2 (P.word s.0) };

    ghost worded = { λ s. Words.bounded_worded I.model E.errors s.1 s.2 (P.worded s.0) };

    #[inline(always)]
    fn process<OM: OutputMode>(&mut self, input: I) -> PResult<I, I, E> {
        let least = self.m.min(self.n);
        let (place, count) = bounded_run::<I, P>(input, &self.predicate, self.n);
        if place.is_none() && OM::Incomplete::STREAMING {
            return Err(Err::Incomplete(Needed::new(lack(self.m, input.input_len()))));
        }
        let (n, enough) = run_end(place, input.input_len(), least, self.m);
        if enough <= count {
            Ok((input.take_from(n), front::<OM::Output, I>(input, n)))
        } else {
            Err(refusal::<OM::Error, I, E>(input, ErrorKind::TakeWhileMN))
        }
    }

    ghost lawful = { λ s k. premised_lawful (run_lawful I.model I.Item.IsValue I.values (P.answers s.0) (P.fixed s.0 k) (Some s.2) s.1
        (λ i. E.errors.of_kind i Kind.TakeWhileMN) E.errors.grows) };
}

impl<I: Input, P: Predicate<I::Item>, E: ParseError<I>> StreamParser<I> for TakeWhileMN<P, I, E> {
    ghost pinned = { λ p k h. slice_pinned I.views };

    ghost steady = { λ s k. premised_steady (run_steady I.model I.Item.IsValue I.values (P.answers s.0) (P.fixed s.0 k) (Some s.2) s.1
        (λ i. E.errors.of_kind i Kind.TakeWhileMN) E.errors.grows) };
}

/// Accepts the longest run of items that meet the test, at least `m` and at most `n` of them.
///
/// If `n` items meet the test and another item follows them, the `n` items are accepted, whatever `m` is. If
/// fewer than `m` items meet it and the next item doesn't, the parser refuses with `TakeWhileMN`.
///
/// If the input ends before that, streaming needs more: as much as the input's length is short of `m`, and at
/// least 1. Complete accepts the whole input if it has at least `m` items, and otherwise refuses with
/// `TakeWhileMN`.
#[inline(always)]
pub fn take_while_m_n<F, I, E>(m: usize, n: usize, predicate: F) -> TakeWhileMN<Where<F>, I, E>
    ensures least { result.m ≡ m }
    ensures most { result.n ≡ n }
    ensures predicate { result.predicate.test ≡ predicate }
{
    TakeWhileMN {
        m,
        n,
        predicate: Where { test: predicate },
        error: PhantomData,
    }
}
