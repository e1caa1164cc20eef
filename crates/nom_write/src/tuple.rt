//! Tuples of two to eight members. A form is one of the first member, followed by one of the others.
ghost use Rattle.nom_write.specs.laws.FirstSetLaws.{first_begins, then_first};
ghost use Rattle.nom_sink.specs.Parts.{Both, BothFail, MeetsForms};
ghost use Rattle.nom_write.specs.laws.SequenceReads.{first_member, last_member, next_member, tuple_reads};

use crate::piece::OneValue;
use crate::writer::Writer;
use nom_sink::error::WriteError;
use nom_sink::piece::{InTurn, Piece};
use nom_sink::sink::Sink;
use nom_traits::input::Items;
use std::marker::PhantomData;

/// Returns the members' pieces in turn, for a tuple of values.
macro_rules! in_turn {
    ($tuple:expr, $value:expr, $last:tt) => {
        OneValue(&$tuple.$last, &$value.$last, PhantomData::<I>)
    };
    ($tuple:expr, $value:expr, $first:tt $($rest:tt)+) => {
        InTurn(
            in_turn!($tuple, $value, $first),
            in_turn!($tuple, $value, $($rest)+),
        )
    };
}

impl<I: Items, P: Writer<I>, Q: Writer<I, Error = P::Error>> Writer<I> for (P, Q) {
    ghost Form = { λ p v. Both (P.Form p.0 v.0) (Q.Form p.1 v.1) };

    ghost Fails = { λ p v. BothFail (P.Form p.0 v.0) (P.Fails p.0 v.0) (Q.Fails p.1 v.1) };

    ghost Follow = { λ p. Q.Follow p.1 };

    ghost CanWrite = { λ p. (P.CanWrite p.0 × Q.CanWrite p.1) × MeetsForms (P.Follow p.0) (Q.Form p.1) (Q.Follow p.1) };

    ghost First = { λ p. P.First p.0 };

    #[inline(always)]
    fn write<X: Sink<I::Item>>(&self, value: &Self::Output, out: &mut X) -> Result<(), WriteError> {
        in_turn!(self, value, 0 1).put(out)
    }

    ghost reads = { λ p k c. tuple_reads (λ o. (o.0, o.1)) (first_member (P.reads p.0 k.0 c.0.0) (last_member I.lawful c.1 (Q.reads p.1 k.1 c.0.1))) };

    ghost begins = { λ p. first_begins (P.begins p.0) (λ v. v.0) (λ s i o a. then_first a) };
}

impl<I: Items, P: Writer<I>, Q: Writer<I, Error = P::Error>, R: Writer<I, Error = P::Error>> Writer<
    I,
> for (P, Q, R) {
    ghost Form = { λ p v. Both (P.Form p.0 v.0) (Both (Q.Form p.1 v.1) (R.Form p.2 v.2)) };

    ghost Fails = { λ p v. BothFail (P.Form p.0 v.0) (P.Fails p.0 v.0) (BothFail (Q.Form p.1 v.1) (Q.Fails p.1 v.1) (R.Fails p.2 v.2)) };

    ghost Follow = { λ p. R.Follow p.2 };

    ghost CanWrite = { λ p. (P.CanWrite p.0 × Q.CanWrite p.1 × R.CanWrite p.2) × MeetsForms (P.Follow p.0) (Q.Form p.1) (Q.Follow p.1) × MeetsForms (Q.Follow
        p.1) (R.Form p.2) (R.Follow p.2) };

    ghost First = { λ p. P.First p.0 };

    #[inline(always)]
    fn write<X: Sink<I::Item>>(&self, value: &Self::Output, out: &mut X) -> Result<(), WriteError> {
        in_turn!(self, value, 0 1 2).put(out)
    }

    ghost reads = { λ p k c. tuple_reads (λ o. (o.0, (o.1, o.2))) (first_member (P.reads p.0 k.0 c.0.0) (next_member c.1 (Q.reads p.1 k.1.0 c.0.1) (last_member
        I.lawful c.2 (R.reads p.2 k.1.1 c.0.2)))) };

    ghost begins = { λ p. first_begins (P.begins p.0) (λ v. v.0) (λ s i o a. then_first a) };
}

impl<
    I: Items,
    P: Writer<I>,
    Q: Writer<I, Error = P::Error>,
    R: Writer<I, Error = P::Error>,
    S: Writer<I, Error = P::Error>,
> Writer<I> for (P, Q, R, S) {
    ghost Form = { λ p v. Both (P.Form p.0 v.0) (Both (Q.Form p.1 v.1) (Both (R.Form p.2 v.2) (S.Form p.3 v.3))) };

    ghost Fails = { λ p v. BothFail (P.Form p.0 v.0) (P.Fails p.0 v.0) (BothFail (Q.Form p.1 v.1) (Q.Fails p.1 v.1) (BothFail (R.Form p.2 v.2) (R.Fails p.2 v.2)
        (S.Fails p.3 v.3))) };

    ghost Follow = { λ p. S.Follow p.3 };

    ghost CanWrite = { λ p. (P.CanWrite p.0 × Q.CanWrite p.1 × R.CanWrite p.2 × S.CanWrite p.3) × MeetsForms (P.Follow p.0) (Q.Form p.1) (Q.Follow p.1) ×
        MeetsForms (Q.Follow p.1) (R.Form p.2) (R.Follow p.2) × MeetsForms (R.Follow p.2) (S.Form p.3) (S.Follow p.3) };

    ghost First = { λ p. P.First p.0 };

    #[inline(always)]
    fn write<X: Sink<I::Item>>(&self, value: &Self::Output, out: &mut X) -> Result<(), WriteError> {
        in_turn!(self, value, 0 1 2 3).put(out)
    }

    ghost reads = { λ p k c. tuple_reads (λ o. (o.0, (o.1, (o.2, o.3)))) (first_member (P.reads p.0 k.0 c.0.0) (next_member c.1 (Q.reads p.1 k.1.0 c.0.1)
        (next_member c.2 (R.reads p.2 k.1.1.0 c.0.2) (last_member I.lawful c.3 (S.reads p.3 k.1.1.1 c.0.3))))) };

    ghost begins = { λ p. first_begins (P.begins p.0) (λ v. v.0) (λ s i o a. then_first a) };
}

impl<
    I: Items,
    P: Writer<I>,
    Q: Writer<I, Error = P::Error>,
    R: Writer<I, Error = P::Error>,
    S: Writer<I, Error = P::Error>,
    T: Writer<I, Error = P::Error>,
> Writer<I> for (P, Q, R, S, T) {
    ghost Form = { λ p v. Both (P.Form p.0 v.0) (Both (Q.Form p.1 v.1) (Both (R.Form p.2 v.2) (Both (S.Form p.3 v.3) (T.Form p.4 v.4)))) };

    ghost Fails = { λ p v. BothFail (P.Form p.0 v.0) (P.Fails p.0 v.0) (BothFail (Q.Form p.1 v.1) (Q.Fails p.1 v.1) (BothFail (R.Form p.2 v.2) (R.Fails p.2 v.2)
        (BothFail (S.Form p.3 v.3) (S.Fails p.3 v.3) (T.Fails p.4 v.4)))) };

    ghost Follow = { λ p. T.Follow p.4 };

    ghost CanWrite = { λ p. (P.CanWrite p.0 × Q.CanWrite p.1 × R.CanWrite p.2 × S.CanWrite p.3 × T.CanWrite p.4) × MeetsForms (P.Follow p.0) (Q.Form p.1)
        (Q.Follow p.1) × MeetsForms (Q.Follow p.1) (R.Form p.2) (R.Follow p.2) × MeetsForms (R.Follow p.2) (S.Form p.3) (S.Follow p.3) × MeetsForms (S.Follow
        p.3) (T.Form p.4) (T.Follow p.4) };

    ghost First = { λ p. P.First p.0 };

    #[inline(always)]
    fn write<X: Sink<I::Item>>(&self, value: &Self::Output, out: &mut X) -> Result<(), WriteError> {
        in_turn!(self, value, 0 1 2 3 4).put(out)
    }

    ghost reads = { λ p k c. tuple_reads (λ o. (o.0, (o.1, (o.2, (o.3, o.4))))) (first_member (P.reads p.0 k.0 c.0.0) (next_member c.1 (Q.reads p.1 k.1.0 c.0.1)
        (next_member c.2 (R.reads p.2 k.1.1.0 c.0.2) (next_member c.3 (S.reads p.3 k.1.1.1.0 c.0.3)
        (last_member I.lawful c.4 (T.reads p.4 k.1.1.1.1 c.0.4)))))) };

    ghost begins = { λ p. first_begins (P.begins p.0) (λ v. v.0) (λ s i o a. then_first a) };
}

impl<
    I: Items,
    P: Writer<I>,
    Q: Writer<I, Error = P::Error>,
    R: Writer<I, Error = P::Error>,
    S: Writer<I, Error = P::Error>,
    T: Writer<I, Error = P::Error>,
    U: Writer<I, Error = P::Error>,
> Writer<I> for (P, Q, R, S, T, U) {
    ghost Form = { λ p v. Both (P.Form p.0 v.0) (Both (Q.Form p.1 v.1)
        (Both (R.Form p.2 v.2) (Both (S.Form p.3 v.3) (Both (T.Form p.4 v.4) (U.Form p.5 v.5))))) };

    ghost Fails = { λ p v. BothFail (P.Form p.0 v.0) (P.Fails p.0 v.0) (BothFail (Q.Form p.1 v.1) (Q.Fails p.1 v.1) (BothFail (R.Form p.2 v.2) (R.Fails p.2 v.2)
        (BothFail (S.Form p.3 v.3) (S.Fails p.3 v.3) (BothFail (T.Form p.4 v.4) (T.Fails p.4 v.4) (U.Fails p.5 v.5))))) };

    ghost Follow = { λ p. U.Follow p.5 };

    ghost CanWrite = { λ p. (P.CanWrite p.0 × Q.CanWrite p.1 × R.CanWrite p.2 × S.CanWrite p.3 × T.CanWrite p.4 × U.CanWrite p.5) × MeetsForms (P.Follow p.0)
        (Q.Form p.1) (Q.Follow p.1) × MeetsForms (Q.Follow p.1) (R.Form p.2) (R.Follow p.2) × MeetsForms (R.Follow p.2) (S.Form p.3) (S.Follow p.3) × MeetsForms
        (S.Follow p.3) (T.Form p.4) (T.Follow p.4) × MeetsForms (T.Follow p.4) (U.Form p.5) (U.Follow p.5) };

    ghost First = { λ p. P.First p.0 };

    #[inline(always)]
    fn write<X: Sink<I::Item>>(&self, value: &Self::Output, out: &mut X) -> Result<(), WriteError> {
        in_turn!(self, value, 0 1 2 3 4 5).put(out)
    }

    ghost reads = { λ p k c. tuple_reads (λ o. (o.0, (o.1, (o.2, (o.3, (o.4, o.5)))))) (first_member (P.reads p.0 k.0 c.0.0) (next_member c.1 (Q.reads p.1 k.1.0
        c.0.1) (next_member c.2 (R.reads p.2 k.1.1.0 c.0.2) (next_member c.3 (S.reads p.3 k.1.1.1.0 c.0.3) (next_member c.4 (T.reads p.4 k.1.1.1.1.0 c.0.4)
        (last_member I.lawful c.5 (U.reads p.5 k.1.1.1.1.1 c.0.5))))))) };

    ghost begins = { λ p. first_begins (P.begins p.0) (λ v. v.0) (λ s i o a. then_first a) };
}

impl<
    I: Items,
    P: Writer<I>,
    Q: Writer<I, Error = P::Error>,
    R: Writer<I, Error = P::Error>,
    S: Writer<I, Error = P::Error>,
    T: Writer<I, Error = P::Error>,
    U: Writer<I, Error = P::Error>,
    V: Writer<I, Error = P::Error>,
> Writer<I> for (P, Q, R, S, T, U, V) {
    ghost Form = { λ p v. Both (P.Form p.0 v.0) (Both (Q.Form p.1 v.1) (Both (R.Form p.2 v.2) (Both (S.Form p.3 v.3) (Both (T.Form p.4 v.4) (Both (U.Form p.5
        v.5) (V.Form p.6 v.6)))))) };

    ghost Fails = { λ p v. BothFail (P.Form p.0 v.0) (P.Fails p.0 v.0) (BothFail (Q.Form p.1 v.1) (Q.Fails p.1 v.1) (BothFail (R.Form p.2 v.2) (R.Fails p.2 v.2)
        (BothFail (S.Form p.3 v.3) (S.Fails p.3 v.3) (BothFail (T.Form p.4 v.4) (T.Fails p.4 v.4) (BothFail (U.Form p.5 v.5) (U.Fails p.5 v.5) (V.Fails p.6
        v.6)))))) };

    ghost Follow = { λ p. V.Follow p.6 };

    ghost CanWrite = { λ p. (P.CanWrite p.0 × Q.CanWrite p.1 × R.CanWrite p.2 × S.CanWrite p.3 × T.CanWrite p.4 × U.CanWrite p.5 × V.CanWrite p.6) × MeetsForms
        (P.Follow p.0) (Q.Form p.1) (Q.Follow p.1) × MeetsForms (Q.Follow p.1) (R.Form p.2) (R.Follow p.2) × MeetsForms (R.Follow p.2) (S.Form p.3) (S.Follow
        p.3) × MeetsForms (S.Follow p.3) (T.Form p.4) (T.Follow p.4) × MeetsForms (T.Follow p.4) (U.Form p.5) (U.Follow p.5) × MeetsForms (U.Follow p.5) (V.Form
        p.6) (V.Follow p.6) };

    ghost First = { λ p. P.First p.0 };

    #[inline(always)]
    fn write<X: Sink<I::Item>>(&self, value: &Self::Output, out: &mut X) -> Result<(), WriteError> {
        in_turn!(self, value, 0 1 2 3 4 5 6).put(out)
    }

    ghost reads = { λ p k c. tuple_reads (λ o. (o.0, (o.1, (o.2, (o.3, (o.4, (o.5, o.6))))))) (first_member (P.reads p.0 k.0 c.0.0) (next_member c.1 (Q.reads
        p.1 k.1.0 c.0.1) (next_member c.2 (R.reads p.2 k.1.1.0 c.0.2) (next_member c.3 (S.reads p.3 k.1.1.1.0 c.0.3) (next_member c.4 (T.reads p.4 k.1.1.1.1.0
        c.0.4) (next_member c.5 (U.reads p.5 k.1.1.1.1.1.0 c.0.5) (last_member I.lawful c.6 (V.reads p.6 k.1.1.1.1.1.1 c.0.6)))))))) };

    ghost begins = { λ p. first_begins (P.begins p.0) (λ v. v.0) (λ s i o a. then_first a) };
}

impl<
    I: Items,
    P: Writer<I>,
    Q: Writer<I, Error = P::Error>,
    R: Writer<I, Error = P::Error>,
    S: Writer<I, Error = P::Error>,
    T: Writer<I, Error = P::Error>,
    U: Writer<I, Error = P::Error>,
    V: Writer<I, Error = P::Error>,
    W: Writer<I, Error = P::Error>,
> Writer<I> for (P, Q, R, S, T, U, V, W) {
    ghost Form = { λ p v. Both (P.Form p.0 v.0) (Both (Q.Form p.1 v.1) (Both (R.Form p.2 v.2) (Both (S.Form p.3 v.3) (Both (T.Form p.4 v.4) (Both (U.Form p.5
        v.5) (Both (V.Form p.6 v.6) (W.Form p.7 v.7))))))) };

    ghost Fails = { λ p v. BothFail (P.Form p.0 v.0) (P.Fails p.0 v.0) (BothFail (Q.Form p.1 v.1) (Q.Fails p.1 v.1) (BothFail (R.Form p.2 v.2) (R.Fails p.2 v.2)
        (BothFail (S.Form p.3 v.3) (S.Fails p.3 v.3) (BothFail (T.Form p.4 v.4) (T.Fails p.4 v.4) (BothFail (U.Form p.5 v.5) (U.Fails p.5 v.5) (BothFail (V.Form
        p.6 v.6) (V.Fails p.6 v.6) (W.Fails p.7 v.7))))))) };

    ghost Follow = { λ p. W.Follow p.7 };

    ghost CanWrite = { λ p. (P.CanWrite p.0 × Q.CanWrite p.1 × R.CanWrite p.2 × S.CanWrite p.3 × T.CanWrite p.4 × U.CanWrite p.5 × V.CanWrite p.6 × W.CanWrite
        p.7) × MeetsForms (P.Follow p.0) (Q.Form p.1) (Q.Follow p.1) × MeetsForms (Q.Follow p.1) (R.Form p.2) (R.Follow p.2) × MeetsForms (R.Follow p.2) (S.Form
        p.3) (S.Follow p.3) × MeetsForms (S.Follow p.3) (T.Form p.4) (T.Follow p.4) × MeetsForms (T.Follow p.4) (U.Form p.5) (U.Follow p.5) × MeetsForms
        (U.Follow p.5) (V.Form p.6) (V.Follow p.6) × MeetsForms (V.Follow p.6) (W.Form p.7) (W.Follow p.7) };

    ghost First = { λ p. P.First p.0 };

    #[inline(always)]
    fn write<X: Sink<I::Item>>(&self, value: &Self::Output, out: &mut X) -> Result<(), WriteError> {
        in_turn!(self, value, 0 1 2 3 4 5 6 7).put(out)
    }

    ghost reads = { λ p k c. tuple_reads (λ o. (o.0, (o.1, (o.2, (o.3, (o.4, (o.5, (o.6, o.7)))))))) (first_member (P.reads p.0 k.0 c.0.0) (next_member c.1
        (Q.reads p.1 k.1.0 c.0.1) (next_member c.2 (R.reads p.2 k.1.1.0 c.0.2) (next_member c.3 (S.reads p.3 k.1.1.1.0 c.0.3) (next_member c.4 (T.reads p.4
        k.1.1.1.1.0 c.0.4) (next_member c.5 (U.reads p.5 k.1.1.1.1.1.0 c.0.5) (next_member c.6 (V.reads p.6 k.1.1.1.1.1.1.0 c.0.6) (last_member I.lawful c.7
        (W.reads p.7 k.1.1.1.1.1.1.1 c.0.7))))))))) };

    ghost begins = { λ p. first_begins (P.begins p.0) (λ v. v.0) (λ s i o a. then_first a) };
}
