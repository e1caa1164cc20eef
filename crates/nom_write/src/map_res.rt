//! Maps that may refuse an output with an error, with a way back.
ghost use Rattle.std.specs.Prelude.{◌≡◌, ◌⊎◌, None, Ok, Some};
ghost use Rattle.std.specs.Borrow.{Bor};
ghost use Rattle.std.specs.Fn.{FnReturnsAt};
ghost use Rattle.nom_sink.specs.declared.error.WriteError.{WriteError};
ghost use Rattle.nom_write.specs.laws.JudgedReads.{map_res_back_begins, map_res_back_reads};

use crate::map::{BothWays, mapped_back};
use crate::writer::Writer;
use nom_error::outside::FromExternalError;
use nom_internal::judged::MapRes;
use nom_sink::error::WriteError;
use nom_sink::sink::Sink;
use nom_traits::input::Items;
use nom_traits::view::Viewed;

/// The parser that `map_res_both` returns.
pub type MapResBoth<F, G, H> = BothWays<MapRes<F, G>, H>;

/// Parses like `map_res(parser, to)`, and writes what `from` returns for a value.
///
/// If `from` returns `None`, the value is a mismatch. Callers of `write` must prove that `to` returns the value, in `Ok`, for what `from`
/// returns for it.
#[inline(always)]
pub fn map_res_both<F, G, H>(parser: F, to: G, from: H) -> MapResBoth<F, G, H>
    ensures { result ≡ record { map = record { parser = parser; map = to }; back = from } }
{
    BothWays {
        map: MapRes { parser, map: to },
        back: from,
    }
}

/// Writes what the value is mapped back to.
impl<
    I: Items,
    X: Drop,
    F: Writer<I> + Drop,
    O: Viewed + Drop,
    G: Fn(F::Output) -> Result<O, X>,
    H: Fn(&O) -> Option<F::Output>,
> Writer<I> for MapResBoth<F, G, H>
where
    F::Error: FromExternalError<I, X>,
{
    ghost Form = { λ p v xs. (x : F.Output) × FnReturnsAt H.Fn p.back v (Some x) × F.Form p.map.parser x xs };

    ghost Fails = { λ p v s e. (FnReturnsAt H.Fn p.back v None × (e ≡ WriteError.Mismatch s.start)) ⊎
        ((x : F.Output) × FnReturnsAt H.Fn p.back v (Some x) × F.Fails p.map.parser x s e) };

    ghost Follow = { λ p. F.Follow p.map.parser };

    ghost CanWrite = { λ p. F.CanWrite p.map.parser × ((v : O) (r : Bor O) → r.now ≡ v → H.pre p.back r) ×
        ((v : O) (x : F.Output) → FnReturnsAt H.Fn p.back v (Some x) → G.post p.map.map x (Ok v)) };

    ghost First = { λ p. F.First p.map.parser };

    #[inline]
    fn write<S: Sink<I::Item>>(&self, value: &O, out: &mut S) -> Result<(), WriteError> {
        match mapped_back(&self.back, value) {
            Some(part) => self.map.parser.write(&part, out),
            None => Err(WriteError::Mismatch(out.len())),
        }
    }

    ghost reads = { λ p k c. map_res_back_reads (G.pre p.map.map) F.Error.externals (G.post p.map.map) (λ v x. FnReturnsAt H.Fn p.back v (Some x))
        k.1 c.2 (F.reads p.map.parser k.0 c.0) };

    ghost begins = { λ p. map_res_back_begins (G.pre p.map.map) F.Error.externals (G.post p.map.map) (λ v x. FnReturnsAt H.Fn p.back v (Some x))
        (F.begins p.map.parser) };
}
