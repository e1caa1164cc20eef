//! Parts in sequence.
ghost use Rattle.std.specs.Prelude.{◌≡◌, ℕ, List, ◌++◌, length};
ghost use Rattle.nom_write.specs.laws.FirstSetLaws.{both_begins, pair_begins, preceded_begins, terminated_begins};
ghost use Rattle.nom_sink.specs.Written.{LacksRoom};
ghost use Rattle.nom_sink.specs.Parts.{Both, BothFail, MeetsForms};
ghost use Rattle.nom_write.specs.laws.SequenceReads.{pair_reads, preceded_reads, terminated_reads};

use crate::piece::{Fixed, OneValue};
use crate::writer::{Constant, Writer};
use nom_internal::sequence::And;
use nom_sequence::{Preceded, Terminated};
use nom_sink::error::WriteError;
use nom_sink::piece::{InTurn, Piece};
use nom_sink::sink::Sink;
use nom_traits::input::Items;
use std::marker::PhantomData;

/// Writes the first value, and then the second.
impl<I: Items, F: Writer<I> + Drop, G: Writer<I, Error = F::Error> + Drop> Writer<I> for And<F, G> {
    ghost Form = { λ p v. Both (F.Form p.first v.0) (G.Form p.second v.1) };

    ghost Fails = { λ p v. BothFail (F.Form p.first v.0) (F.Fails p.first v.0) (G.Fails p.second v.1) };

    ghost Follow = { λ p. G.Follow p.second };

    ghost CanWrite = { λ p. F.CanWrite p.first × G.CanWrite p.second × MeetsForms (F.Follow p.first) (G.Form p.second) (G.Follow p.second) };

    ghost First = { λ p. F.First p.first };

    #[inline(always)]
    fn write<S: Sink<I::Item>>(
        &self,
        value: &(F::Output, G::Output),
        out: &mut S,
    ) -> Result<(), WriteError> {
        InTurn(
            OneValue::<I, F>(&self.first, &value.0, PhantomData),
            OneValue::<I, G>(&self.second, &value.1, PhantomData),
        )
        .put(out)
    }

    ghost reads = { λ p k c. pair_reads I.lawful c.2 (F.reads p.first k.0 c.0) (G.reads p.second k.1 c.1) };

    ghost begins = { λ p. both_begins (pair_begins (F.begins p.first) (G.grammar (G.state p.second))) };
}

/// Writes the constant, and then the value.
impl<I: Items, F: Constant<I> + Drop, G: Writer<I, Error = F::Error> + Drop> Writer<I>
    for Preceded<F, G> {
    ghost Form = { λ p v. Both (λ xs. xs ≡ F.items p.first) (G.Form p.second v) };

    ghost Fails = { λ p v. BothFail (λ xs. xs ≡ F.items p.first) (LacksRoom (length (F.items p.first))) (G.Fails p.second v) };

    ghost Follow = { λ p. G.Follow p.second };

    ghost CanWrite = { λ p. F.Fits p.first × G.CanWrite p.second };

    ghost First = { λ p. F.Start p.first };

    #[inline(always)]
    fn write<S: Sink<I::Item>>(&self, value: &G::Output, out: &mut S) -> Result<(), WriteError> {
        InTurn(
            Fixed::<I, F>(&self.first, PhantomData),
            OneValue::<I, G>(&self.second, value, PhantomData),
        )
        .put(out)
    }

    ghost reads = { λ p k c. preceded_reads I.lawful (F.accepts p.first k.0 c.0) (G.reads p.second k.1 c.1) };

    ghost begins = { λ p. preceded_begins I.Item.code (F.grammar (F.state p.first)) (F.items p.first) (F.others p.first) };
}

/// Writes the value, and then the constant.
impl<I: Items, F: Writer<I> + Drop, G: Constant<I, Error = F::Error> + Drop> Writer<I>
    for Terminated<F, G> {
    ghost Form = { λ p v. Both (F.Form p.first v) (λ xs. xs ≡ G.items p.second) };

    ghost Fails = { λ p v. BothFail (F.Form p.first v) (F.Fails p.first v) (LacksRoom (length (G.items p.second))) };

    ghost CanWrite = { λ p. (F.CanWrite p.first × G.Fits p.second) × ((rest : List I.Item) → F.Follow p.first (G.items p.second ++ rest)) };

    ghost First = { λ p. F.First p.first };

    #[inline(always)]
    fn write<S: Sink<I::Item>>(&self, value: &F::Output, out: &mut S) -> Result<(), WriteError> {
        InTurn(
            OneValue::<I, F>(&self.first, value, PhantomData),
            Fixed::<I, G>(&self.second, PhantomData),
        )
        .put(out)
    }

    ghost reads = { λ p k c. terminated_reads I.lawful c.1 (F.reads p.first k.0 c.0.0) (G.accepts p.second k.1 c.0.1) };

    ghost begins = { λ p. both_begins (terminated_begins (F.begins p.first) (G.grammar (G.state p.second))) };
}
