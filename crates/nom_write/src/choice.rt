//! Choices. The first branch that can write a value writes it.
//!
//! The branches before must refuse what a branch writes. Their words show it, if they and those of the branch are known. If not, callers
//! prove it, by `either_apart` of `specs/laws/ChoiceReads.antt`.
ghost use Rattle.nom_write.specs.Choices.{first_forms, or_forms};
ghost use Rattle.nom_write.specs.FirstSets.{AreDisjoint, or_first, one_branch, or_branch};
ghost use Rattle.nom_write.specs.laws.FirstSetLaws.{last_begins, or_begins};
ghost use Rattle.nom_sink.specs.Choices.{Either, EitherFails};
ghost use Rattle.nom_write.specs.laws.BranchReads.{first_read, last_read, next_read, or_reads};

use crate::piece::OneValue;
use crate::writer::Writer;
use nom_branch::Choice;
use nom_internal::either::Or;
use nom_sink::error::WriteError;
use nom_sink::piece::{FirstFit, Piece};
use nom_sink::sink::Sink;
use nom_traits::input::Items;
use std::marker::PhantomData;

/// Returns the first piece that is fit, of the parts at the places. The last part's place stands first.
macro_rules! first_fit {
    ($parts:expr, $value:expr, $first:tt) => {
        OneValue(&$parts.$first, $value, PhantomData::<I>)
    };
    ($parts:expr, $value:expr, $last:tt $($before:tt)+) => {
        FirstFit(
            first_fit!($parts, $value, $($before)+),
            first_fit!($parts, $value, $last),
        )
    };
}

/// Writes by the first part, or by the second if the value is unfit for the first.
///
/// The first part must refuse what the second writes.
impl<
    I: Items,
    F: Writer<I> + Drop,
    G: Writer<I, Output = F::Output, Error = F::Error> + Drop,
> Writer<I> for Or<F, G> {
    ghost Form = { λ p v. Either (F.Form p.first v) (F.Fails p.first v) (G.Form p.second v) };

    ghost Fails = { λ p v. EitherFails (F.Fails p.first v) (G.Fails p.second v) };

    ghost Follow = { λ p rest. F.Follow p.first rest × G.Follow p.second rest };

    ghost CanWrite = { λ p. F.CanWrite p.first × G.CanWrite p.second ×
        AreDisjoint I.model (F.grammar (F.state p.first)) (F.First p.first) (G.Form p.second) (G.First p.second) };

    ghost First = { λ p. or_first (F.First p.first) (G.First p.second) };

    #[inline]
    fn write<X: Sink<I::Item>>(&self, value: &F::Output, out: &mut X) -> Result<(), WriteError> {
        first_fit!(self, value, second first).put(out)
    }

    ghost reads = { λ p k c. or_reads F.Error.errors (F.reads p.first k.0 c.0) (F.begins p.first) (G.reads p.second k.1 c.1) (G.begins p.second) c.2 };

    ghost begins = { λ p. or_begins F.Error.errors (F.begins p.first) (G.begins p.second) };
}

impl<I: Items, P: Writer<I>, Q: Writer<I, Error = P::Error, Output = P::Output>> Writer<I>
    for Choice<(P, Q)> {
    ghost Form = { λ p. let b = p.parsers in (or_forms (first_forms P.Form P.Fails b.0) Q.Form Q.Fails b.1).Form };

    ghost Fails = { λ p v. let b = p.parsers in EitherFails (P.Fails b.0 v) (Q.Fails b.1 v) };

    ghost Follow = { λ p rest. let b = p.parsers in P.Follow b.0 rest × Q.Follow b.1 rest };

    ghost CanWrite = { λ p. let b = p.parsers in (P.CanWrite b.0 × Q.CanWrite b.1) × (or_branch (one_branch I.model P.Error.errors P.grammar P.state P.First
        b.0) Q.grammar Q.state Q.Form Q.First b.1).AreAllDisjoint };

    ghost First = { λ p. let b = p.parsers in or_first (P.First b.0) (Q.First b.1) };

    #[inline]
    fn write<X: Sink<I::Item>>(&self, value: &P::Output, out: &mut X) -> Result<(), WriteError> {
        first_fit!(self.parsers, value, 1 0).put(out)
    }

    ghost reads = { λ p k c. let b = p.parsers in last_read (first_read P.Error.errors (P.reads b.0) c.0.0 (P.begins b.0)) (Q.reads b.1) c.0.1 (Q.begins b.1) k
        c.1 };

    ghost begins = { λ p. let b = p.parsers in let e = P.Error.errors in last_begins e (P.begins b.0) (Q.begins b.1) };
}

impl<
    I: Items,
    P: Writer<I>,
    Q: Writer<I, Error = P::Error, Output = P::Output>,
    R: Writer<I, Error = P::Error, Output = P::Output>,
> Writer<I> for Choice<(P, Q, R)> {
    ghost Form = { λ p. let b = p.parsers in (or_forms (or_forms (first_forms P.Form P.Fails b.0) Q.Form Q.Fails b.1) R.Form R.Fails b.2).Form };

    ghost Fails = { λ p v. let b = p.parsers in EitherFails (EitherFails (P.Fails b.0 v) (Q.Fails b.1 v)) (R.Fails b.2 v) };

    ghost Follow = { λ p rest. let b = p.parsers in (P.Follow b.0 rest × Q.Follow b.1 rest) × R.Follow b.2 rest };

    ghost CanWrite = { λ p. let b = p.parsers in (P.CanWrite b.0 × Q.CanWrite b.1 × R.CanWrite b.2) × (or_branch (or_branch (one_branch I.model P.Error.errors
        P.grammar P.state P.First b.0) Q.grammar Q.state Q.Form Q.First b.1) R.grammar R.state R.Form R.First b.2).AreAllDisjoint };

    ghost First = { λ p. let b = p.parsers in or_first (or_first (P.First b.0) (Q.First b.1)) (R.First b.2) };

    #[inline]
    fn write<X: Sink<I::Item>>(&self, value: &P::Output, out: &mut X) -> Result<(), WriteError> {
        first_fit!(self.parsers, value, 2 1 0).put(out)
    }

    ghost reads = { λ p k c. let b = p.parsers in last_read (next_read (first_read P.Error.errors (P.reads b.0) c.0.0 (P.begins b.0)) (Q.reads b.1) c.0.1
        (Q.begins b.1)) (R.reads b.2) c.0.2 (R.begins b.2) k c.1 };

    ghost begins = { λ p. let b = p.parsers in let e = P.Error.errors in last_begins e (or_begins e (P.begins b.0) (Q.begins b.1)) (R.begins b.2) };
}

impl<
    I: Items,
    P: Writer<I>,
    Q: Writer<I, Error = P::Error, Output = P::Output>,
    R: Writer<I, Error = P::Error, Output = P::Output>,
    S: Writer<I, Error = P::Error, Output = P::Output>,
> Writer<I> for Choice<(P, Q, R, S)> {
    ghost Form = { λ p. let b = p.parsers in (or_forms (or_forms (or_forms (first_forms P.Form P.Fails b.0) Q.Form Q.Fails b.1) R.Form R.Fails b.2) S.Form
        S.Fails b.3).Form };

    ghost Fails = { λ p v. let b = p.parsers in EitherFails (EitherFails (EitherFails (P.Fails b.0 v) (Q.Fails b.1 v)) (R.Fails b.2 v)) (S.Fails b.3 v) };

    ghost Follow = { λ p rest. let b = p.parsers in ((P.Follow b.0 rest × Q.Follow b.1 rest) × R.Follow b.2 rest) × S.Follow b.3 rest };

    ghost CanWrite = { λ p. let b = p.parsers in (P.CanWrite b.0 × Q.CanWrite b.1 × R.CanWrite b.2 × S.CanWrite b.3) × (or_branch (or_branch (or_branch
        (one_branch I.model P.Error.errors P.grammar P.state P.First b.0) Q.grammar Q.state Q.Form Q.First b.1) R.grammar R.state R.Form R.First b.2) S.grammar
        S.state S.Form S.First b.3).AreAllDisjoint };

    ghost First = { λ p. let b = p.parsers in or_first (or_first (or_first (P.First b.0) (Q.First b.1)) (R.First b.2)) (S.First b.3) };

    #[inline]
    fn write<X: Sink<I::Item>>(&self, value: &P::Output, out: &mut X) -> Result<(), WriteError> {
        first_fit!(self.parsers, value, 3 2 1 0).put(out)
    }

    ghost reads = { λ p k c. let b = p.parsers in last_read (next_read (next_read (first_read P.Error.errors (P.reads b.0) c.0.0 (P.begins b.0)) (Q.reads b.1)
        c.0.1 (Q.begins b.1)) (R.reads b.2) c.0.2 (R.begins b.2)) (S.reads b.3) c.0.3 (S.begins b.3) k c.1 };

    ghost begins = { λ p. let b = p.parsers in let e = P.Error.errors in last_begins e (or_begins e (or_begins e (P.begins b.0) (Q.begins b.1)) (R.begins b.2))
        (S.begins b.3) };
}

impl<
    I: Items,
    P: Writer<I>,
    Q: Writer<I, Error = P::Error, Output = P::Output>,
    R: Writer<I, Error = P::Error, Output = P::Output>,
    S: Writer<I, Error = P::Error, Output = P::Output>,
    T: Writer<I, Error = P::Error, Output = P::Output>,
> Writer<I> for Choice<(P, Q, R, S, T)> {
    ghost Form = { λ p. let b = p.parsers in (or_forms (or_forms (or_forms (or_forms (first_forms P.Form P.Fails b.0) Q.Form Q.Fails b.1) R.Form R.Fails b.2)
        S.Form S.Fails b.3) T.Form T.Fails b.4).Form };

    ghost Fails = { λ p v. let b = p.parsers in EitherFails (EitherFails (EitherFails (EitherFails (P.Fails b.0 v) (Q.Fails b.1 v)) (R.Fails b.2 v)) (S.Fails
        b.3 v)) (T.Fails b.4 v) };

    ghost Follow = { λ p rest. let b = p.parsers in (((P.Follow b.0 rest × Q.Follow b.1 rest) × R.Follow b.2 rest) × S.Follow b.3 rest) × T.Follow b.4 rest };

    ghost CanWrite = { λ p. let b = p.parsers in (P.CanWrite b.0 × Q.CanWrite b.1 × R.CanWrite b.2 × S.CanWrite b.3 × T.CanWrite b.4) × (or_branch (or_branch
        (or_branch (or_branch (one_branch I.model P.Error.errors P.grammar P.state P.First b.0) Q.grammar Q.state Q.Form Q.First b.1) R.grammar R.state R.Form
        R.First b.2) S.grammar S.state S.Form S.First b.3) T.grammar T.state T.Form T.First b.4).AreAllDisjoint };

    ghost First = { λ p. let b = p.parsers in or_first (or_first (or_first (or_first (P.First b.0) (Q.First b.1)) (R.First b.2)) (S.First b.3)) (T.First b.4) };

    #[inline]
    fn write<X: Sink<I::Item>>(&self, value: &P::Output, out: &mut X) -> Result<(), WriteError> {
        first_fit!(self.parsers, value, 4 3 2 1 0).put(out)
    }

    ghost reads = { λ p k c. let b = p.parsers in last_read (next_read (next_read (next_read (first_read P.Error.errors (P.reads b.0) c.0.0 (P.begins b.0))
        (Q.reads b.1) c.0.1 (Q.begins b.1)) (R.reads b.2) c.0.2 (R.begins b.2)) (S.reads b.3) c.0.3 (S.begins b.3)) (T.reads b.4) c.0.4 (T.begins b.4) k c.1 };

    ghost begins = { λ p. let b = p.parsers in let e = P.Error.errors in last_begins e (or_begins e (or_begins e (or_begins e (P.begins b.0) (Q.begins b.1))
        (R.begins b.2)) (S.begins b.3)) (T.begins b.4) };
}

impl<
    I: Items,
    P: Writer<I>,
    Q: Writer<I, Error = P::Error, Output = P::Output>,
    R: Writer<I, Error = P::Error, Output = P::Output>,
    S: Writer<I, Error = P::Error, Output = P::Output>,
    T: Writer<I, Error = P::Error, Output = P::Output>,
    U: Writer<I, Error = P::Error, Output = P::Output>,
> Writer<I> for Choice<(P, Q, R, S, T, U)> {
    ghost Form = { λ p. let b = p.parsers in (or_forms (or_forms (or_forms (or_forms (or_forms (first_forms P.Form P.Fails b.0) Q.Form Q.Fails b.1) R.Form
        R.Fails b.2) S.Form S.Fails b.3) T.Form T.Fails b.4) U.Form U.Fails b.5).Form };

    ghost Fails = { λ p v. let b = p.parsers in EitherFails (EitherFails (EitherFails (EitherFails (EitherFails (P.Fails b.0 v) (Q.Fails b.1 v)) (R.Fails b.2
        v)) (S.Fails b.3 v)) (T.Fails b.4 v)) (U.Fails b.5 v) };

    ghost Follow = { λ p rest. let b = p.parsers in ((((P.Follow b.0 rest × Q.Follow b.1 rest) × R.Follow b.2 rest) × S.Follow b.3 rest) × T.Follow b.4 rest) ×
        U.Follow b.5 rest };

    ghost CanWrite = { λ p. let b = p.parsers in (P.CanWrite b.0 × Q.CanWrite b.1 × R.CanWrite b.2 × S.CanWrite b.3 × T.CanWrite b.4 × U.CanWrite b.5) ×
        (or_branch (or_branch (or_branch (or_branch (or_branch (one_branch I.model P.Error.errors P.grammar P.state P.First b.0) Q.grammar Q.state Q.Form
        Q.First b.1) R.grammar R.state R.Form R.First b.2) S.grammar S.state S.Form S.First b.3) T.grammar T.state T.Form T.First b.4) U.grammar U.state U.Form
        U.First b.5).AreAllDisjoint };

    ghost First = { λ p. let b = p.parsers in or_first (or_first (or_first (or_first (or_first (P.First b.0) (Q.First b.1)) (R.First b.2)) (S.First b.3))
        (T.First b.4)) (U.First b.5) };

    #[inline]
    fn write<X: Sink<I::Item>>(&self, value: &P::Output, out: &mut X) -> Result<(), WriteError> {
        first_fit!(self.parsers, value, 5 4 3 2 1 0).put(out)
    }

    ghost reads = { λ p k c. let b = p.parsers in last_read (next_read (next_read (next_read (next_read (first_read P.Error.errors (P.reads b.0) c.0.0 (P.begins
        b.0)) (Q.reads b.1) c.0.1 (Q.begins b.1)) (R.reads b.2) c.0.2 (R.begins b.2)) (S.reads b.3) c.0.3 (S.begins b.3)) (T.reads b.4) c.0.4 (T.begins b.4))
        (U.reads b.5) c.0.5 (U.begins b.5) k c.1 };

    ghost begins = { λ p. let b = p.parsers in let e = P.Error.errors in last_begins e (or_begins e (or_begins e (or_begins e (or_begins e (P.begins b.0)
        (Q.begins b.1)) (R.begins b.2)) (S.begins b.3)) (T.begins b.4)) (U.begins b.5) };
}

impl<
    I: Items,
    P: Writer<I>,
    Q: Writer<I, Error = P::Error, Output = P::Output>,
    R: Writer<I, Error = P::Error, Output = P::Output>,
    S: Writer<I, Error = P::Error, Output = P::Output>,
    T: Writer<I, Error = P::Error, Output = P::Output>,
    U: Writer<I, Error = P::Error, Output = P::Output>,
    V: Writer<I, Error = P::Error, Output = P::Output>,
> Writer<I> for Choice<(P, Q, R, S, T, U, V)> {
    ghost Form = { λ p. let b = p.parsers in (or_forms (or_forms (or_forms (or_forms (or_forms (or_forms (first_forms P.Form P.Fails b.0) Q.Form Q.Fails b.1)
        R.Form R.Fails b.2) S.Form S.Fails b.3) T.Form T.Fails b.4) U.Form U.Fails b.5) V.Form V.Fails b.6).Form };

    ghost Fails = { λ p v. let b = p.parsers in EitherFails (EitherFails (EitherFails (EitherFails (EitherFails (EitherFails (P.Fails b.0 v) (Q.Fails b.1 v))
        (R.Fails b.2 v)) (S.Fails b.3 v)) (T.Fails b.4 v)) (U.Fails b.5 v)) (V.Fails b.6 v) };

    ghost Follow = { λ p rest. let b = p.parsers in (((((P.Follow b.0 rest × Q.Follow b.1 rest) × R.Follow b.2 rest) × S.Follow b.3 rest) × T.Follow b.4 rest) ×
        U.Follow b.5 rest) × V.Follow b.6 rest };

    ghost CanWrite = { λ p. let b = p.parsers in (P.CanWrite b.0 × Q.CanWrite b.1 × R.CanWrite b.2 × S.CanWrite b.3 × T.CanWrite b.4 × U.CanWrite b.5 ×
        V.CanWrite b.6) × (or_branch (or_branch (or_branch (or_branch (or_branch (or_branch (one_branch I.model P.Error.errors P.grammar P.state P.First b.0)
        Q.grammar Q.state Q.Form Q.First b.1) R.grammar R.state R.Form R.First b.2) S.grammar S.state S.Form S.First b.3) T.grammar T.state T.Form T.First b.4)
        U.grammar U.state U.Form U.First b.5) V.grammar V.state V.Form V.First b.6).AreAllDisjoint };

    ghost First = { λ p. let b = p.parsers in or_first (or_first (or_first (or_first (or_first (or_first (P.First b.0) (Q.First b.1)) (R.First b.2)) (S.First
        b.3)) (T.First b.4)) (U.First b.5)) (V.First b.6) };

    #[inline]
    fn write<X: Sink<I::Item>>(&self, value: &P::Output, out: &mut X) -> Result<(), WriteError> {
        first_fit!(self.parsers, value, 6 5 4 3 2 1 0).put(out)
    }

    ghost reads = { λ p k c. let b = p.parsers in last_read (next_read (next_read (next_read (next_read (next_read (first_read P.Error.errors (P.reads b.0)
        c.0.0 (P.begins b.0)) (Q.reads b.1) c.0.1 (Q.begins b.1)) (R.reads b.2) c.0.2 (R.begins b.2)) (S.reads b.3) c.0.3 (S.begins b.3)) (T.reads b.4) c.0.4
        (T.begins b.4)) (U.reads b.5) c.0.5 (U.begins b.5)) (V.reads b.6) c.0.6 (V.begins b.6) k c.1 };

    ghost begins = { λ p. let b = p.parsers in let e = P.Error.errors in last_begins e (or_begins e (or_begins e (or_begins e (or_begins e (or_begins e
        (P.begins b.0) (Q.begins b.1)) (R.begins b.2)) (S.begins b.3)) (T.begins b.4)) (U.begins b.5)) (V.begins b.6) };
}

impl<
    I: Items,
    P: Writer<I>,
    Q: Writer<I, Error = P::Error, Output = P::Output>,
    R: Writer<I, Error = P::Error, Output = P::Output>,
    S: Writer<I, Error = P::Error, Output = P::Output>,
    T: Writer<I, Error = P::Error, Output = P::Output>,
    U: Writer<I, Error = P::Error, Output = P::Output>,
    V: Writer<I, Error = P::Error, Output = P::Output>,
    W: Writer<I, Error = P::Error, Output = P::Output>,
> Writer<I> for Choice<(P, Q, R, S, T, U, V, W)> {
    ghost Form = { λ p. let b = p.parsers in (or_forms (or_forms (or_forms (or_forms (or_forms (or_forms (or_forms (first_forms P.Form P.Fails b.0) Q.Form
        Q.Fails b.1) R.Form R.Fails b.2) S.Form S.Fails b.3) T.Form T.Fails b.4) U.Form U.Fails b.5) V.Form V.Fails b.6) W.Form W.Fails b.7).Form };

    ghost Fails = { λ p v. let b = p.parsers in EitherFails (EitherFails (EitherFails (EitherFails (EitherFails (EitherFails (EitherFails (P.Fails b.0 v)
        (Q.Fails b.1 v)) (R.Fails b.2 v)) (S.Fails b.3 v)) (T.Fails b.4 v)) (U.Fails b.5 v)) (V.Fails b.6 v)) (W.Fails b.7 v) };

    ghost Follow = { λ p rest. let b = p.parsers in ((((((P.Follow b.0 rest × Q.Follow b.1 rest) × R.Follow b.2 rest) × S.Follow b.3 rest) × T.Follow b.4 rest)
        × U.Follow b.5 rest) × V.Follow b.6 rest) × W.Follow b.7 rest };

    ghost CanWrite = { λ p. let b = p.parsers in (P.CanWrite b.0 × Q.CanWrite b.1 × R.CanWrite b.2 × S.CanWrite b.3 × T.CanWrite b.4 × U.CanWrite b.5 ×
        V.CanWrite b.6 × W.CanWrite b.7) × (or_branch (or_branch (or_branch (or_branch (or_branch (or_branch (or_branch (one_branch I.model P.Error.errors
        P.grammar P.state P.First b.0) Q.grammar Q.state Q.Form Q.First b.1) R.grammar R.state R.Form R.First b.2) S.grammar S.state S.Form S.First b.3)
        T.grammar T.state T.Form T.First b.4) U.grammar U.state U.Form U.First b.5) V.grammar V.state V.Form V.First b.6) W.grammar W.state W.Form W.First
        b.7).AreAllDisjoint };

    ghost First = { λ p. let b = p.parsers in or_first (or_first (or_first (or_first (or_first (or_first (or_first (P.First b.0) (Q.First b.1)) (R.First b.2))
        (S.First b.3)) (T.First b.4)) (U.First b.5)) (V.First b.6)) (W.First b.7) };

    #[inline]
    fn write<X: Sink<I::Item>>(&self, value: &P::Output, out: &mut X) -> Result<(), WriteError> {
        first_fit!(self.parsers, value, 7 6 5 4 3 2 1 0).put(out)
    }

    ghost reads = { λ p k c. let b = p.parsers in last_read (next_read (next_read (next_read (next_read (next_read (next_read (first_read P.Error.errors
        (P.reads b.0) c.0.0 (P.begins b.0)) (Q.reads b.1) c.0.1 (Q.begins b.1)) (R.reads b.2) c.0.2 (R.begins b.2)) (S.reads b.3) c.0.3 (S.begins b.3)) (T.reads
        b.4) c.0.4 (T.begins b.4)) (U.reads b.5) c.0.5 (U.begins b.5)) (V.reads b.6) c.0.6 (V.begins b.6)) (W.reads b.7) c.0.7 (W.begins b.7) k c.1 };

    ghost begins = { λ p. let b = p.parsers in let e = P.Error.errors in last_begins e (or_begins e (or_begins e (or_begins e (or_begins e (or_begins e
        (or_begins e (P.begins b.0) (Q.begins b.1)) (R.begins b.2)) (S.begins b.3)) (T.begins b.4)) (U.begins b.5)) (V.begins b.6)) (W.begins b.7) };
}
