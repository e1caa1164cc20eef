//! Runs of items that pass a test. An item that doesn't pass it must follow.
ghost use Rattle.std.specs.Prelude.{◌≡◌, ◌≤◌, ◌<◌, None, Some, MatchBool};
ghost use Rattle.std.proofs.Common.{refl};
ghost use Rattle.nom_bytes.specs.Tests.{free};
ghost use Rattle.nom_error.specs.declared.kind.ErrorKind.TheVariants as Kind;
ghost use Rattle.nom_traits.specs.declared.character.AsciiClass.TheVariants as Class;
ghost use Rattle.nom_character.specs.ClassRuns.{IsOf, class_lawful, least_of, wanted_error, wanted_grows};
ghost use Rattle.nom_write.specs.Runs.{BeginsOther, IsNoRun, IsRunForm, RunFails};
ghost use Rattle.nom_sink.specs.Written.{Written};
ghost use Rattle.nom_write.specs.laws.FirstSetLaws.{no_first};
ghost use Rattle.nom_write.specs.laws.RunReads.{run_reads, test_reads};
ghost use Rattle.nom_traits.specs.declared.character.AsciiClass.{AsciiClass};

use crate::unmarked::Unmarked;
use crate::writer::Writer;
use nom_bytes::predicate::Predicate;
use nom_bytes::{SplitPosition, SplitPosition1, TakeWhileMN};
use nom_character::{ClassRun, Digit1};
use nom_error::value::ParseError;
use nom_sink::error::WriteError;
use nom_sink::sink::Sink;
use nom_traits::character::{AsChar, AsciiClass};
use nom_traits::input::Input;

/// Returns whether all items pass a test, and their number is within the bounds.
#[inline]
fn is_run<I: Unmarked, P: Predicate<I::Item>>(
    predicate: &P,
    least: usize,
    most: Option<usize>,
    value: I,
) -> bool
    requires { P.Runs (P.state predicate.now) }
    ensures { MatchBool result (IsRunForm I.model (P.answers (P.state predicate.now)) least most value (I.model.elements value))
        (IsNoRun I.model (P.answers (P.state predicate.now)) least most value) }
{
    value.known();
    let count = value.count_items();
    if count < least {
        return false;
    }
    if let Some(most) = most {
        if most < count {
            return false;
        }
    }
    match predicate.end(value) {
        Some(_) => false,
        None => true,
    }
}

/// Adds items that all pass a test, and whose number is within the bounds. Others are a mismatch. On an error, `out` is as it was.
#[inline]
fn write_run<I: Unmarked, P: Predicate<I::Item>, S: Sink<I::Item>>(
    predicate: &P,
    least: usize,
    most: Option<usize>,
    value: I,
    out: &mut S,
) -> Result<(), WriteError>
    requires { P.Runs (P.state predicate.now) }
    ensures written { Written (IsRunForm I.model (P.answers (P.state predicate.now)) least most value)
        (RunFails I.model (P.answers (P.state predicate.now)) least most value) S.model out.old out.new result }
    ensures room { S.model.room out.old ≤ S.model.room out.new }
    ensures loan { S.model.loan out.new ≡ S.model.loan out.old }
{
    if is_run::<I, P>(predicate, least, most, value) {
        value.add_to(out)
    } else {
        Err(WriteError::Mismatch(out.len()))
    }
}

/// Writes items that all pass the test. Others are a mismatch.
impl<I: Unmarked, P: Predicate<I::Item>, E: ParseError<I>> Writer<I> for SplitPosition<P, I, E> {
    ghost Form = { λ p. IsRunForm I.model (P.answers (P.state p.predicate)) 0 None };

    ghost Fails = { λ p. RunFails I.model (P.answers (P.state p.predicate)) 0 None };

    ghost Follow = { λ p. BeginsOther (P.answers (P.state p.predicate)) };

    ghost CanWrite = { λ p. P.Runs (P.state p.predicate) };

    #[inline]
    fn write<S: Sink<I::Item>>(&self, value: &I, out: &mut S) -> Result<(), WriteError> {
        write_run::<I, P, S>(&self.predicate, 0, None, *value, out)
    }

    ghost reads = { λ p k c. let s = P.state p.predicate in test_reads I.model I.values (P.fixed s k) (P.Runs s) (P.IsSound s) None 0 (λ _ _. ⊥) ⊥ I.one_mark };

    ghost begins = { λ p. no_first };
}

/// Writes items that all pass the test, at least one. Others are a mismatch.
impl<I: Unmarked, P: Predicate<I::Item>, E: ParseError<I>> Writer<I> for SplitPosition1<P, I, E> {
    ghost Form = { λ p. IsRunForm I.model (P.answers (P.state p.predicate)) 1 None };

    ghost Fails = { λ p. RunFails I.model (P.answers (P.state p.predicate)) 1 None };

    ghost Follow = { λ p. BeginsOther (P.answers (P.state p.predicate)) };

    ghost CanWrite = { λ p. P.Runs (P.state p.predicate) };

    #[inline]
    fn write<S: Sink<I::Item>>(&self, value: &I, out: &mut S) -> Result<(), WriteError> {
        write_run::<I, P, S>(&self.predicate, 1, None, *value, out)
    }

    ghost reads = { λ p k c. let s = P.state p.predicate in test_reads I.model I.values (P.fixed s k) (P.Runs s) (P.IsSound s) None 1 (λ i. E.errors.of_kind i
        p.kind) E.errors.grows I.one_mark };

    ghost begins = { λ p. no_first };
}

/// Writes items that all pass the test, if their number is within the bounds. Others are a mismatch.
impl<I: Unmarked, P: Predicate<I::Item>, E: ParseError<I>> Writer<I> for TakeWhileMN<P, I, E> {
    ghost Form = { λ p. IsRunForm I.model (P.answers (P.state p.predicate)) p.m (Some p.n) };

    ghost Fails = { λ p. RunFails I.model (P.answers (P.state p.predicate)) p.m (Some p.n) };

    ghost Follow = { λ p. BeginsOther (P.answers (P.state p.predicate)) };

    ghost CanWrite = { λ p. P.Runs (P.state p.predicate) };

    #[inline]
    fn write<S: Sink<I::Item>>(&self, value: &I, out: &mut S) -> Result<(), WriteError> {
        write_run::<I, P, S>(&self.predicate, self.m, Some(self.n), *value, out)
    }

    ghost reads = { λ p k c. let s = P.state p.predicate in test_reads I.model I.values (P.fixed s k) (P.Runs s) (P.IsSound s) (Some p.n) p.m (λ i.
        E.errors.of_kind i Kind.TakeWhileMN) E.errors.grows I.one_mark };

    ghost begins = { λ p. no_first };
}

/// A class of items, as a test.
#[derive(Drop)]
struct OfClass {
    class: AsciiClass,
}

impl<T: AsChar> Predicate<T> for OfClass {
    ghost State = { AsciiClass };

    ghost state = { λ p. p.class };

    ghost answers = { IsOf T.code };

    ghost Runs = { λ _. Unit {0} };

    ghost IsSound = { λ _. Unit {0} };

    ghost word = { λ class. free (IsOf T.code class) };

    ghost worded = { λ class. refl };

    #[inline(always)]
    fn meets(&self, item: T) -> bool {
        self.class.has(item)
    }

    #[inline(always)]
    fn end<I: Input<Item = T>>(&self, input: I) -> Option<usize> {
        input.position_outside(self.class)
    }

    ghost fixed = { λ class h x v meets fails. cc (meets, fails) };
}

/// Writes items of the class, at least one if the parser requires one. Others are a mismatch.
impl<I: Unmarked, E: ParseError<I>> Writer<I> for ClassRun<I, E>
where
    I::Item: AsChar,
{
    ghost Form = { λ p. IsRunForm I.model (IsOf I.Item.code p.class) (least_of p.wanted) None };

    ghost Fails = { λ p. RunFails I.model (IsOf I.Item.code p.class) (least_of p.wanted) None };

    ghost Follow = { λ p. BeginsOther (IsOf I.Item.code p.class) };

    #[inline]
    fn write<S: Sink<I::Item>>(&self, value: &I, out: &mut S) -> Result<(), WriteError> {
        let class = OfClass { class: self.class };
        match self.wanted {
            None => write_run::<I, OfClass, S>(&class, 0, None, *value, out),
            Some(_) => write_run::<I, OfClass, S>(&class, 1, None, *value, out),
        }
    }

    ghost reads = { λ p k c. run_reads I.model (IsOf I.Item.code p.class) (least_of p.wanted) None (wanted_error E.errors p.wanted)
        (wanted_grows E.errors p.wanted) (class_lawful I.model I.Item.IsValue I.values I.Item.code E.errors p.class p.wanted) I.one_mark };

    ghost begins = { λ p. no_first };
}

/// Writes decimal digits, at least one. Other items are a mismatch.
impl<I: Unmarked, E: ParseError<I>> Writer<I> for Digit1<I, E>
where
    I::Item: AsChar,
{
    ghost Form = { λ p. IsRunForm I.model (IsOf I.Item.code Class.Digit) 1 None };

    ghost Fails = { λ p. RunFails I.model (IsOf I.Item.code Class.Digit) 1 None };

    ghost Follow = { λ p. BeginsOther (IsOf I.Item.code Class.Digit) };

    #[inline]
    fn write<S: Sink<I::Item>>(&self, value: &I, out: &mut S) -> Result<(), WriteError> {
        let class = OfClass {
            class: AsciiClass::Digit,
        };
        write_run::<I, OfClass, S>(&class, 1, None, *value, out)
    }

    ghost reads = { λ p k c. run_reads I.model (IsOf I.Item.code Class.Digit) 1 None (wanted_error E.errors (Some Kind.Digit))
        (wanted_grows E.errors (Some Kind.Digit))
        (class_lawful I.model I.Item.IsValue I.values I.Item.code E.errors Class.Digit (Some Kind.Digit)) I.one_mark };

    ghost begins = { λ p. no_first };
}
