//! Maps that may refuse an output, with a way back.
ghost use Rattle.std.specs.Prelude.{◌≡◌, ◌⊎◌, None, Some};
ghost use Rattle.std.specs.Borrow.{Bor};
ghost use Rattle.std.specs.Fn.{FnReturnsAt};
ghost use Rattle.nom_sink.specs.declared.error.WriteError.{WriteError};
ghost use Rattle.nom_write.specs.laws.JudgedReads.{map_opt_back_begins, map_opt_back_reads};

use crate::map::{BothWays, mapped_back};
use crate::writer::Writer;
use nom_internal::judged::MapOpt;
use nom_sink::error::WriteError;
use nom_sink::sink::Sink;
use nom_traits::input::Items;
use nom_traits::view::Viewed;

/// The parser that `map_opt_both` returns.
pub type MapOptBoth<F, G, H> = BothWays<MapOpt<F, G>, H>;

/// Parses like `map_opt(parser, to)`, and writes what `from` returns for a value.
///
/// If `from` returns `None`, the value is a mismatch. Callers of `write` must prove that `to` returns the value, in `Some`, for what `from`
/// returns for it.
#[inline(always)]
pub fn map_opt_both<F, G, H>(parser: F, to: G, from: H) -> MapOptBoth<F, G, H>
    ensures { result ≡ record { map = record { parser = parser; map = to }; back = from } }
{
    BothWays {
        map: MapOpt { parser, map: to },
        back: from,
    }
}

/// Writes what the value is mapped back to.
impl<
    I: Items,
    F: Writer<I> + Drop,
    O: Viewed + Drop,
    G: Fn(F::Output) -> Option<O>,
    H: Fn(&O) -> Option<F::Output>,
> Writer<I> for MapOptBoth<F, G, H> {
    ghost Form = { λ p v xs. (x : F.Output) × FnReturnsAt H.Fn p.back v (Some x) × F.Form p.map.parser x xs };

    ghost Fails = { λ p v s e. (FnReturnsAt H.Fn p.back v None × (e ≡ WriteError.Mismatch s.start)) ⊎
        ((x : F.Output) × FnReturnsAt H.Fn p.back v (Some x) × F.Fails p.map.parser x s e) };

    ghost Follow = { λ p. F.Follow p.map.parser };

    ghost CanWrite = { λ p. F.CanWrite p.map.parser × ((v : O) (r : Bor O) → r.now ≡ v → H.pre p.back r) ×
        ((v : O) (x : F.Output) → FnReturnsAt H.Fn p.back v (Some x) → G.post p.map.map x (Some v)) };

    ghost First = { λ p. F.First p.map.parser };

    #[inline]
    fn write<S: Sink<I::Item>>(&self, value: &O, out: &mut S) -> Result<(), WriteError> {
        match mapped_back(&self.back, value) {
            Some(part) => self.map.parser.write(&part, out),
            None => Err(WriteError::Mismatch(out.len())),
        }
    }

    ghost reads = { λ p k c. map_opt_back_reads (G.pre p.map.map) F.Error.errors (G.post p.map.map) (λ v x. FnReturnsAt H.Fn p.back v (Some x))
        k.1 c.2 (F.reads p.map.parser k.0 c.0) };

    ghost begins = { λ p. map_opt_back_begins (G.pre p.map.map) F.Error.errors (G.post p.map.map) (λ v x. FnReturnsAt H.Fn p.back v (Some x))
        (F.begins p.map.parser) };
}
