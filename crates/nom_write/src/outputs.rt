//! Fixed values, and outputs that pass a test.
ghost use Rattle.std.specs.Prelude.{◌≡◌, ◌⊎◌, true, false, length};
ghost use Rattle.nom_internal.specs.Closures.{GivesAt, TakesAt};
ghost use Rattle.nom_sink.specs.Written.{LacksRoom};
ghost use Rattle.nom_sink.specs.declared.error.WriteError.{WriteError};
ghost use Rattle.nom_write.specs.laws.OutputReads.{value_begins, value_reads, verify_begins, verify_reads};

use crate::writer::{Constant, Writer};
use nom_combinator::{Value, Verify};
use nom_sink::error::WriteError;
use nom_sink::sink::Sink;
use nom_traits::input::Items;
use nom_traits::view::Viewed;

/// Writes the part, if the value is equal to the parser's. Any other value is a mismatch.
impl<I: Items, O: Clone + PartialEq + Viewed, F: Constant<I> + Drop> Writer<I> for Value<O, F> {
    ghost Form = { λ p v xs. O.is_clone p.value v × (xs ≡ F.items p.parser) };

    ghost Fails = { λ p v s e. ((O.eq p.value v ≡ false) × (e ≡ WriteError.Mismatch s.start)) ⊎ LacksRoom (length (F.items p.parser)) s e };

    ghost CanWrite = { λ p. F.Fits p.parser × ((v : O) → O.eq p.value v ≡ true → O.is_clone p.value v) };

    ghost First = { λ p. F.Start p.parser };

    #[inline]
    fn write<S: Sink<I::Item>>(&self, value: &O, out: &mut S) -> Result<(), WriteError> {
        if self.value == *value {
            self.parser.write_constant(out)
        } else {
            Err(WriteError::Mismatch(out.len()))
        }
    }

    ghost reads = { λ p k c. value_reads (F.grammar (F.state p.parser)) p.value (O.is_infallible p.value) (O.is_clone p.value)
        (F.items p.parser) (F.accepts p.parser k c.0) };

    ghost begins = { λ p. value_begins (F.grammar (F.state p.parser)) p.value (O.is_infallible p.value) (O.is_clone p.value)
        (F.items p.parser) I.Item.code (F.others p.parser) };
}

/// Returns whether a value passes a test.
#[inline(always)]
fn passes<O, G: Fn(&O) -> bool>(test: &G, value: &O) -> bool
    requires callable { TakesAt (G.pre test.now) value.now }
    ensures { GivesAt (G.post test.now) value.now result }
{
    test(value)
}

/// Writes a value that passes the test. Any other value is a mismatch.
impl<I: Items, F: Writer<I> + Drop, G: Fn(&F::Output) -> bool> Writer<I> for Verify<F, G> {
    ghost Form = { λ p v xs. GivesAt (G.post p.test) v true × F.Form p.parser v xs };

    ghost Fails = { λ p v s e. (GivesAt (G.post p.test) v false × (e ≡ WriteError.Mismatch s.start)) ⊎
        (GivesAt (G.post p.test) v true × F.Fails p.parser v s e) };

    ghost Follow = { λ p. F.Follow p.parser };

    ghost CanWrite = { λ p. F.CanWrite p.parser × ((v : F.Output) → TakesAt (G.pre p.test) v) };

    ghost First = { λ p. F.First p.parser };

    #[inline]
    fn write<S: Sink<I::Item>>(&self, value: &F::Output, out: &mut S) -> Result<(), WriteError> {
        if passes(&self.test, value) {
            self.parser.write(value, out)
        } else {
            Err(WriteError::Mismatch(out.len()))
        }
    }

    ghost reads = { λ p k c. verify_reads F.Error.errors (TakesAt (G.pre p.test)) (GivesAt (G.post p.test)) k.1
        (F.reads p.parser k.0 c.0) };

    ghost begins = { λ p. verify_begins F.Error.errors (TakesAt (G.pre p.test)) (GivesAt (G.post p.test))
        (F.begins p.parser) };
}
