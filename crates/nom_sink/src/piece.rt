//! Pieces that are ready to be written.
ghost use Rattle.std.specs.Prelude.{◌≤◌, ◌≡◌, ℕ, IfErr, IfOk, List, length, take};
ghost use Rattle.nom_sink.specs.Choices.{Either, EitherFails};
ghost use Rattle.nom_sink.specs.Parts.{Both, BothFail};
ghost use Rattle.nom_sink.specs.Written.{LacksRoom, Space, Written};
ghost use Rattle.nom_sink.specs.Written.Lack.{OfSpace};

use crate::error::WriteError;
use crate::sink::{Sink, slice_sink};

/// Something that is ready to be written. It needs no value.
pub trait Piece<T> {
    ghost use Rattle.nom_sink.specs.declared.error.WriteError.{WriteError};

    /// The items that stand for it.
    ghost Form: { Self → List T → Type 0 };

    /// Why it isn't written.
    ghost Fails: { Self → Space → WriteError → Type 0 };

    /// What must hold so that it may be written.
    ghost CanPut: { Self → Type 0 } = { λ _. Unit {0} };

    /// Adds the piece to `out`. On an error, `out` is as it was.
    fn put<S: Sink<T>>(&self, out: &mut S) -> Result<(), WriteError>
        requires { CanPut self.now }
        ensures written { Written (Form self.now) (Fails self.now) S.model out.old out.new result }
        ensures room { S.model.room out.old ≤ S.model.room out.new }
        ensures loan { S.model.loan out.new ≡ S.model.loan out.old };
}

/// Items as they are.
#[derive(Drop)]
pub struct Plain<'a, T>(pub &'a [T]);

impl<'a, T> Piece<T> for Plain<'a, T> {
    ghost Form = { λ o xs. xs ≡ o.0.now };

    ghost Fails = { λ o. LacksRoom (length o.0.now) };

    #[inline(always)]
    fn put<S: Sink<T>>(&self, out: &mut S) -> Result<(), WriteError> {
        out.add(self.0)
    }
}

/// The first piece, and then the second. If the second fails, the first is removed again.
#[derive(Drop)]
pub struct InTurn<F, G>(pub F, pub G);

impl<T, F: Piece<T>, G: Piece<T>> Piece<T> for InTurn<F, G> {
    ghost Form = { λ o. Both (F.Form o.0) (G.Form o.1) };

    ghost Fails = { λ o. BothFail (F.Form o.0) (F.Fails o.0) (G.Fails o.1) };

    ghost CanPut = { λ o. F.CanPut o.0 × G.CanPut o.1 };

    #[inline(always)]
    fn put<S: Sink<T>>(&self, out: &mut S) -> Result<(), WriteError> {
        let start = out.len();
        match self.0.put(out) {
            Ok(()) => match self.1.put(out) {
                Ok(()) => Ok(()),
                Err(error) => {
                    out.truncate(start);
                    Err(error)
                }
            },
            Err(error) => Err(error),
        }
    }
}

/// The first piece, or the second if the first is unfit. The second isn't tried if the first lacks room.
#[derive(Drop)]
pub struct FirstFit<F, G>(pub F, pub G);

impl<T, F: Piece<T>, G: Piece<T>> Piece<T> for FirstFit<F, G> {
    ghost Form = { λ o. Either (F.Form o.0) (F.Fails o.0) (G.Form o.1) };

    ghost Fails = { λ o. EitherFails (F.Fails o.0) (G.Fails o.1) };

    ghost CanPut = { λ o. F.CanPut o.0 × G.CanPut o.1 };

    #[inline]
    fn put<S: Sink<T>>(&self, out: &mut S) -> Result<(), WriteError> {
        match self.0.put(out) {
            Ok(()) => Ok(()),
            Err(error) => {
                if error.is_unfit() {
                    self.1.put(out)
                } else {
                    Err(error)
                }
            }
        }
    }
}

/// Puts a piece at the start of a slice, and returns the number of its items. The slice then begins with them.
///
/// Behind them, and after an error, there may be items of a part that was written and given up. If the piece has none
/// that it gives up, the rest of the slice is as it was.
#[inline]
pub fn put_in_slice<T: Copy, P: Piece<T>>(piece: &P, buffer: &mut [T]) -> Result<usize, WriteError>
    requires { P.CanPut piece.now }
    ensures put { IfOk result (λ n. (n ≤ length buffer.new) × P.Form piece.now (take n buffer.new)) }
    ensures length { length buffer.new ≡ length buffer.old }
    ensures fails { IfErr result (λ e. (room : ℕ) × (length buffer.old ≤ room) ×
        P.Fails piece.now (record { lack = OfSpace; room = room; start = 0 }) e) }
{
    let mut out = slice_sink(buffer);
    match piece.put(&mut out) {
        Ok(()) => Ok(out.len()),
        Err(error) => Err(error),
    }
}
