//! Maps with a way back.
ghost use Rattle.std.specs.Prelude.{◌≡◌, ◌⊎◌, Some, None};
ghost use Rattle.nom_write.specs.laws.FirstSetLaws.{map_begins};
ghost use Rattle.nom_sink.specs.declared.error.WriteError.{WriteError};
ghost use Rattle.std.specs.Borrow.{Bor};
ghost use Rattle.std.specs.Fn.{FnReturnsAt};
ghost use Rattle.nom_write.specs.laws.ChoiceReads.{map_back_reads};

use crate::writer::Writer;
use nom_error::answer::PResult;
use nom_error::mode::OutputMode;
use nom_internal::map::Map;
use nom_internal::parser::{Parser, StreamParser};
use nom_sink::error::WriteError;
use nom_sink::sink::Sink;
use nom_traits::input::Items;
use nom_traits::view::Viewed;

/// A map, and the way back from its values.
#[derive(Drop)]
pub struct BothWays<M, H> {
    pub map: M,
    pub back: H,
}

/// The parser that `map_both` returns.
pub type MapBoth<F, G, H> = BothWays<Map<F, G>, H>;

/// Parses like `map(parser, to)`, and writes what `from` returns for a value.
///
/// If `from` returns `None`, the value is a mismatch; so each branch for an enum takes its own variant. Callers of
/// `write` must prove that `to` maps the result of `from` to the value.
#[inline(always)]
pub fn map_both<F, G, H>(parser: F, to: G, from: H) -> MapBoth<F, G, H>
    ensures { result ≡ record { map = record { parser = parser; map = to }; back = from } }
{
    BothWays {
        map: Map { parser, map: to },
        back: from,
    }
}

/// Parses as the map does.
impl<I: Items, M: Parser<I>, H> Parser<I> for BothWays<M, H> {
    type Output = M::Output;

    type Error = M::Error;

    ghost State = { M.State };

    ghost state = { λ p. M.state p.map };

    ghost Tree = { M.Tree };

    ghost grammar = { M.grammar };

    ghost word = { M.word };

    ghost worded = { M.worded };

    ghost SideCondition = { λ mode old new. M.SideCondition mode old.map new.map };

    #[inline(always)]
    fn process<OM: OutputMode>(&mut self, input: I) -> PResult<I, M::Output, M::Error> {
        self.map.process::<OM>(input)
    }

    ghost lawful = { M.lawful };
}

impl<I: Items, M: StreamParser<I>, H> StreamParser<I> for BothWays<M, H> {
    ghost Pins = { λ p. M.Pins p.map };

    ghost pinned = { λ p. M.pinned p.map };

    ghost steady = { M.steady };
}

/// Returns what a closure maps a value back to.
#[inline(always)]
pub(crate) fn mapped_back<O, P, H: Fn(&O) -> Option<P>>(back: &H, value: &O) -> Option<P>
    requires callable { (p : Bor O) → p.now ≡ value.now → H.pre back.now p }
    ensures { FnReturnsAt H.Fn back.now value.now result }
{
    back(value)
}

/// Writes what the value is mapped back to.
impl<
    I: Items,
    F: Writer<I> + Drop,
    O: Viewed + Drop,
    G: Fn(F::Output) -> O,
    H: Fn(&O) -> Option<F::Output>,
> Writer<I> for MapBoth<F, G, H> {
    ghost Form = { λ p v xs. (x : F.Output) × FnReturnsAt H.Fn p.back v (Some x) × F.Form p.map.parser x xs };

    ghost Fails = { λ p v s e. (FnReturnsAt H.Fn p.back v None × (e ≡ WriteError.Mismatch s.start)) ⊎
        ((x : F.Output) × FnReturnsAt H.Fn p.back v (Some x) × F.Fails p.map.parser x s e) };

    ghost Follow = { λ p. F.Follow p.map.parser };

    ghost CanWrite = { λ p. F.CanWrite p.map.parser × ((v : O) (r : Bor O) → r.now ≡ v → H.pre p.back r) ×
        ((v : O) (x : F.Output) → FnReturnsAt H.Fn p.back v (Some x) → G.post p.map.map x v) };

    ghost First = { λ p. F.First p.map.parser };

    #[inline]
    fn write<S: Sink<I::Item>>(&self, value: &O, out: &mut S) -> Result<(), WriteError> {
        match mapped_back(&self.back, value) {
            Some(part) => self.map.parser.write(&part, out),
            None => Err(WriteError::Mismatch(out.len())),
        }
    }

    ghost reads = { λ p k c. map_back_reads (G.pre p.map.map) (G.post p.map.map) (λ v x. FnReturnsAt H.Fn p.back v (Some x)) c.2 (F.reads
        p.map.parser k c.0) };

    ghost begins = { λ p. map_begins (F.begins p.map.parser) };
}
