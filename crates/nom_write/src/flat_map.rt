//! Formats whose later part depends on an earlier one.
ghost use Rattle.std.specs.Prelude.{◌≡◌, List, ℕ, Some, true};
ghost use Rattle.std.specs.Borrow.{Bor};
ghost use Rattle.std.specs.Fn.{FnReturnsAt};
ghost use Rattle.nom_error.specs.Modes.{with_outputs};
ghost use Rattle.nom_internal.specs.FlatMap.{OfEachGiven, flat_map_by, maker};
ghost use Rattle.nom_internal.specs.Grammar.{GivesAt};
ghost use Rattle.nom_internal.specs.Results.{MadeSideCondition, ThenSideCondition};
ghost use Rattle.nom_sink.specs.Parts.{Meets};
ghost use Rattle.nom_write.specs.FlatMaps.{FlatMapFails, FlatMapForm, OfEachSecond};
ghost use Rattle.nom_internal.specs.Word.{keyed};
ghost use Rattle.nom_internal.specs.Words as Words;

use crate::map::mapped_back;
use crate::writer::Writer;
use nom_error::answer::PResult;
use nom_error::mode::OutputMode;
use nom_internal::flat_map::FlatMap;
use nom_internal::parser::{Parser, StreamParser};
use nom_sink::error::WriteError;
use nom_sink::sink::Sink;
use nom_traits::input::Items;
use nom_traits::view::Viewed;

/// The parser that `flat_map_both` returns.
#[derive(Drop)]
pub struct FlatMapBoth<F, G, K> {
    pub flat: FlatMap<F, G>,
    pub back: K,
}

/// Parses like `flat_map(parser, to)`. Writes the first value that `from` returns for a value, and then the value itself, by the parser
/// that `to` returns for the first.
///
/// If `from` returns `None`, the value is a mismatch. Callers of `write` must prove that `to` accepts what `from` returns, and what the
/// parsers that `to` returns for it require. What such a parser writes, and what may follow it, must be allowed to follow the first form.
/// `from` need not return the first value that was read: whichever it returns is written, and the value is read back.
#[inline(always)]
pub fn flat_map_both<F, G, K>(parser: F, to: G, from: K) -> FlatMapBoth<F, G, K>
    ensures { result ≡ record { flat = record { first = parser; make = to }; back = from } }
{
    FlatMapBoth {
        flat: FlatMap {
            first: parser,
            make: to,
        },
        back: from,
    }
}

impl<
    I: Items,
    F: Parser<I> + Drop,
    H: Parser<I, Error = F::Error> + Drop,
    G: Fn(F::Output) -> H + Drop,
    K,
> Parser<I> for FlatMapBoth<F, G, K> {
    ghost use Rattle.nom_internal.specs.laws.FlatMapLaws.{flat_map_lawful};

    type Output = H::Output;

    type Error = F::Error;

    ghost State = { F.State × G };

    ghost state = { λ p. (F.state p.flat.first, p.flat.make) };

    ghost Tree = { H.State × H.Tree };

    ghost grammar = { λ s. flat_map_by I.model (maker (G.pre s.1) (G.post s.1) H.state) (F.grammar s.0) H.grammar };

    ghost word = { λ s. Words.flat_map_of I.model (maker (G.pre s.1) (G.post s.1) H.state) (keyed H.grammar) (F.word s.0) };

    ghost worded = { λ s. Words.flat_map_worded I.model (maker (G.pre s.1) (G.post s.1) H.state) (keyed H.grammar) (F.worded s.0) };

    ghost SideCondition = { λ mode old new i. ThenSideCondition (F.SideCondition (with_outputs true mode) old.flat.first new.flat.first i)
        (MadeSideCondition (GivesAt (F.grammar (F.state old.flat.first)) mode.streaming i) (G.post old.flat.make) (H.SideCondition mode)) };

    #[inline(always)]
    fn process<OM: OutputMode>(&mut self, input: I) -> PResult<I, H::Output, F::Error> {
        self.flat.process::<OM>(input)
    }

    ghost lawful = { λ s k. flat_map_lawful k.1 H.lawful I.lawful (F.lawful s.0 k.0) };
}

impl<
    I: Items,
    F: StreamParser<I> + Drop,
    H: StreamParser<I, Error = F::Error> + Drop,
    G: Fn(F::Output) -> H + Drop,
    K,
> StreamParser<I> for FlatMapBoth<F, G, K> {
    ghost use Rattle.nom_internal.specs.laws.FlatMapLaws.{flat_map_steady, given_pinned};

    ghost Pins = { λ p. OfEachGiven (F.grammar (F.state p.flat.first)).IsOutput (maker (G.pre p.flat.make) (G.post p.flat.make) H.state) H.Pins };

    ghost pinned = { λ p k h. given_pinned k.1 h H.pinned };

    ghost steady = { λ s k. flat_map_steady k.1 H.steady I.lawful (F.steady s.0 k.0) };
}

/// Writes the first value that the value is mapped back to, and then the value itself. If that fails, the first is removed again.
impl<
    I: Items,
    F: Writer<I> + Drop,
    H: Writer<I, Error = F::Error> + Drop,
    G: Fn(F::Output) -> H + Drop,
    K: Fn(&H::Output) -> Option<F::Output>,
> Writer<I> for FlatMapBoth<F, G, K> {
    ghost use Rattle.nom_write.specs.laws.FlatMapReads.{flat_map_begins, flat_map_reads};

    ghost Form = { λ p. FlatMapForm (FnReturnsAt K.Fn p.back) (G.post p.flat.make) (F.Form p.flat.first) H.Form };

    ghost Fails = { λ p. FlatMapFails (FnReturnsAt K.Fn p.back) (G.post p.flat.make) (F.Form p.flat.first) (F.Fails p.flat.first) H.Fails };

    // (for each value, and each parser that is given for it)
    ghost Follow = { λ p rest. OfEachSecond (FnReturnsAt K.Fn p.back) (G.post p.flat.make) (λ _ h. H.Follow h rest) };

    ghost CanWrite = { λ p. F.CanWrite p.flat.first × ((v : H.Output) (r : Bor H.Output) → r.now ≡ v → K.pre p.back r) ×
        ((v : H.Output) (x : F.Output) → FnReturnsAt K.Fn p.back v (Some x) → G.pre p.flat.make x) ×
        OfEachSecond (FnReturnsAt K.Fn p.back) (G.post p.flat.make) (λ v h. H.CanWrite h × Meets (F.Follow p.flat.first) (H.Form h v)
        (λ rest. OfEachSecond (FnReturnsAt K.Fn p.back) (G.post p.flat.make) (λ _ q. H.Follow q rest))) };

    ghost First = { λ p. F.First p.flat.first };

    #[inline]
    fn write<S: Sink<I::Item>>(&self, value: &H::Output, out: &mut S) -> Result<(), WriteError> {
        match mapped_back(&self.back, value) {
            Some(first) => {
                let start = out.len();
                match self.flat.first.write(&first, out) {
                    Ok(()) => {
                        let second = (self.flat.make)(first);
                        match second.write(value, out) {
                            Ok(()) => Ok(()),
                            Err(error) => {
                                out.truncate(start);
                                Err(error)
                            }
                        }
                    }
                    Err(error) => Err(error),
                }
            }
            None => Err(WriteError::Mismatch(out.len())),
        }
    }

    ghost reads = { λ p k c. flat_map_reads (maker (G.pre p.flat.make) (G.post p.flat.make) H.state) H.grammar (FnReturnsAt K.Fn p.back) H.Form
        I.lawful k.1 H.Follow H.CanWrite c.3 (F.reads p.flat.first k.0 c.0) H.reads };

    ghost begins = { λ p. flat_map_begins (maker (G.pre p.flat.make) (G.post p.flat.make) H.state) H.grammar (FnReturnsAt K.Fn p.back) H.Form
        I.Item.code (F.begins p.flat.first) };
}
