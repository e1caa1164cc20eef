//! A value that nothing stands for.
ghost use Rattle.std.specs.Prelude.{◌≡◌, false, true, []};
ghost use Rattle.nom_write.specs.laws.FirstSetLaws.{no_first};
ghost use Rattle.nom_write.specs.laws.SuccessReads.{clone_reads};
ghost use Rattle.nom_sink.specs.declared.error.WriteError.{WriteError};

use crate::writer::Writer;
use nom_combinator::Success;
use nom_error::value::ParseError;
use nom_sink::error::WriteError;
use nom_sink::sink::Sink;
use nom_traits::input::Items;
use nom_traits::view::Viewed;

/// Writes nothing, if the value is equal to the parser's. Any other value is a mismatch.
impl<I: Items, O: Clone + PartialEq + Viewed, E: ParseError<I>> Writer<I> for Success<O, I, E> {
    ghost Form = { λ p v xs. O.is_clone p.value v × (xs ≡ []) };

    ghost Fails = { λ p v s e. (O.eq p.value v ≡ false) × (e ≡ WriteError.Mismatch s.start) };

    ghost CanWrite = { λ p. (v : O) → O.eq p.value v ≡ true → O.is_clone p.value v };

    #[inline]
    fn write<S: Sink<I::Item>>(&self, value: &O, out: &mut S) -> Result<(), WriteError> {
        if self.value == *value {
            Ok(())
        } else {
            Err(WriteError::Mismatch(out.len()))
        }
    }

    ghost reads = { λ p k c. clone_reads I.model p.value (O.is_infallible p.value) (O.is_clone p.value) };

    ghost begins = { λ p. no_first };
}
