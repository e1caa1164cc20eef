//! Values of one kind, one after another, and pieces after their length.
ghost use Rattle.std.specs.Prelude.{◌≤◌, ◌≡◌, List};
ghost use Rattle.nom_sink.specs.Lists.{EachForm, EachFail, ItemFails, ItemForm};
ghost use Rattle.nom_sink.specs.Parts.{AfterLength, AfterLengthFails};
ghost use Rattle.nom_sink.specs.Written.{Space, Written};

use crate::error::WriteError;
use crate::piece::Piece;
use crate::sink::Sink;
use core::mem::replace_with;

/// What makes a piece of each value of a list.
pub trait PutItem<T> {
    ghost use Rattle.nom_sink.specs.declared.error.WriteError.{WriteError};

    /// The type of the values.
    type Item;

    /// The items that stand for a value.
    ghost Form: { Self → Self.Item → List T → Type 0 };

    /// Why a value isn't written.
    ghost Fails: { Self → Self.Item → Space → WriteError → Type 0 };

    /// What must hold so that values may be written.
    ghost CanPut: { Self → Type 0 };

    /// Adds a value to `out`. On an error, `out` is as it was.
    fn put_item<S: Sink<T>>(&self, item: &Self::Item, out: &mut S) -> Result<(), WriteError>
        requires { CanPut self.now }
        ensures written { Written (Form self.now item.now) (Fails self.now item.now) S.model out.old out.new result }
        ensures room { S.model.room out.old ≤ S.model.room out.new }
        ensures loan { S.model.loan out.new ≡ S.model.loan out.old };
}

/// Adds one value. If `some`, a value without items is a mismatch. On an error, `out` is as it was.
#[inline(always)]
fn put_one<T, P: PutItem<T>, S: Sink<T>>(
    by: &P,
    item: &P::Item,
    some: bool,
    out: &mut S,
) -> Result<(), WriteError>
    requires { P.CanPut by.now }
    ensures written { Written (ItemForm some (P.Form by.now) item.now) (ItemFails some (P.Form by.now)
        (P.Fails by.now) item.now) S.model out.old out.new result }
    ensures room { S.model.room out.old ≤ S.model.room out.new }
    ensures loan { S.model.loan out.new ≡ S.model.loan out.old }
{
    let start = out.len();
    match by.put_item(item, out) {
        Ok(()) => {
            if some && out.len() == start {
                Err(WriteError::Mismatch(start))
            } else {
                Ok(())
            }
        }
        Err(error) => Err(error),
    }
}

/// Adds each value, in turn, to a sink that is moved in and out.
#[inline(always)]
fn with_each<T, V, P: PutItem<T, Item = V>, S: Sink<T>>(
    out: S,
    args: (&P, &[V], bool),
) -> (S, Result<(), WriteError>)
    requires { P.CanPut args.0.now }
    ensures written { Written (EachForm (ItemForm args.entry.2 (P.Form args.entry.0.now)) args.entry.1.now) (EachFail (ItemForm args.entry.2
        (P.Form args.entry.0.now)) (ItemFails args.entry.2 (P.Form args.entry.0.now) (P.Fails args.entry.0.now)) args.entry.1.now) S.model
        out result.0 result.1 }
    ensures room { S.model.room out ≤ S.model.room result.0 }
    ensures loan { S.model.loan result.0 ≡ S.model.loan out }
{
    let (by, items, some) = args;
    let mut out = out;
    let start = out.len();
    for item in items {
        match put_one::<T, P, S>(by, item, some, &mut out) {
            Ok(()) => {}
            Err(error) => {
                out.truncate(start);
                return (out, Err(error));
            }
        }
    }
    (out, Ok(()))
}

/// Adds each value, in turn. If `some`, a value without items is a mismatch. On an error, `out` is as it was.
// The sink is moved in and out, so that a list stays in registers.
#[inline]
pub fn put_each<T, P: PutItem<T>, S: Sink<T>>(
    by: &P,
    items: &[P::Item],
    some: bool,
    out: &mut S,
) -> Result<(), WriteError>
    requires { P.CanPut by.now }
    ensures written { Written (EachForm (ItemForm some (P.Form by.now)) items.now) (EachFail (ItemForm some
        (P.Form by.now)) (ItemFails some (P.Form by.now) (P.Fails by.now)) items.now) S.model out.old out.new result }
    ensures room { S.model.room out.old ≤ S.model.room out.new }
    ensures loan { S.model.loan out.new ≡ S.model.loan out.old }
{
    replace_with(
        out,
        (by, items, some),
        |out: S, args: (&P, &[P::Item], bool)| { with_each::<T, P::Item, P, S>(out, args) },
    )
}

/// Each value of a slice, in turn. If the Boolean is true, a value without items is a mismatch.
#[derive(Drop)]
pub struct EachOf<'a, P, V>(pub P, pub &'a [V], pub bool);

impl<'a, T, V, P: PutItem<T, Item = V>> Piece<T> for EachOf<'a, P, V> {
    ghost Form = { λ o. EachForm (ItemForm o.2 (P.Form o.0)) o.1.now };

    ghost Fails = { λ o. EachFail (ItemForm o.2 (P.Form o.0)) (ItemFails o.2 (P.Form o.0) (P.Fails o.0)) o.1.now };

    ghost CanPut = { λ o. P.CanPut o.0 };

    #[inline(always)]
    fn put<S: Sink<T>>(&self, out: &mut S) -> Result<(), WriteError> {
        put_each::<T, P, S>(&self.0, self.1, self.2, out)
    }
}

/// A piece, after its length in items.
///
/// The piece is put before its length is known, and then moved behind it. So a place within the piece is counted
/// without the length.
#[derive(Drop)]
pub struct Measured<L, P>(pub L, pub P);

impl<T, L: PutItem<T, Item = usize>, P: Piece<T>> Piece<T> for Measured<L, P> {
    ghost Form = { λ o. AfterLength (L.Form o.0) (P.Form o.1) };

    ghost Fails = { λ o. AfterLengthFails (L.Fails o.0) (P.Form o.1) (P.Fails o.1) };

    ghost CanPut = { λ o. L.CanPut o.0 × P.CanPut o.1 };

    #[inline]
    fn put<S: Sink<T>>(&self, out: &mut S) -> Result<(), WriteError> {
        let begin = out.len();
        match self.1.put(out) {
            Ok(()) => {
                let middle = out.len();
                let count = middle - begin;
                match self.0.put_item(&count, out) {
                    Ok(()) => {
                        out.move_behind(begin, middle);
                        Ok(())
                    }
                    Err(error) => {
                        out.truncate(begin);
                        Err(error.moved_back(count))
                    }
                }
            }
            Err(error) => Err(error),
        }
    }
}
