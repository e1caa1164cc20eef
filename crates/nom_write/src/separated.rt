//! Lists with a separator.
ghost use Rattle.std.specs.Prelude.{◌≡◌, ◌≤◌, ℕ, true, List, ◌++◌, length};
ghost use Rattle.nom_sequence.specs.Sequences.{preceded_of};
ghost use Rattle.nom_sink.specs.Lists.{EachForm, EachFail, ItemFails, ItemForm};
ghost use Rattle.nom_sink.specs.Parts.{BothFail};
ghost use Rattle.nom_write.specs.Reads.{NoItem};
ghost use Rattle.nom_write.specs.Separated.{AfterFails, AfterSeparator, AnyFails, AnyForm, SomeFails, SomeForm};
ghost use Rattle.nom_sink.specs.Written.{Written};
ghost use Rattle.nom_write.specs.laws.FirstSetLaws.{no_first};
ghost use Rattle.nom_write.specs.laws.SeparatedReads.{separated_list0_reads, separated_list1_reads};

use crate::piece::{Fixed, OneValue};
use crate::writer::{Constant, Writer};
use nom_separated::{SeparatedList0, SeparatedList1};
use nom_sink::error::WriteError;
use nom_sink::items::{EachOf, PutItem};
use nom_sink::piece::{InTurn, Piece};
use nom_sink::sink::Sink;
use nom_traits::input::{Input, Items};
use std::alloc::Allocator;
use std::marker::PhantomData;

/// A writer of each item after a separator.
#[derive(Drop)]
struct EachAfter<'a, I: Items, C: Constant<I>, G: Writer<I>>(&'a C, &'a G, PhantomData<I>);

impl<'a, I: Items, C: Constant<I>, G: Writer<I>> PutItem<I::Item> for EachAfter<'a, I, C, G> {
    type Item = G::Output;

    ghost Form = { λ o. AfterSeparator (C.items o.0.now) (G.Form o.1.now) };

    ghost Fails = { λ o. AfterFails (C.items o.0.now) (G.Fails o.1.now) };

    ghost CanPut = { λ o. C.Fits o.0.now × G.CanWrite o.1.now };

    #[inline(always)]
    fn put_item<S: Sink<I::Item>>(&self, item: &G::Output, out: &mut S) -> Result<(), WriteError> {
        InTurn(
            Fixed::<I, C>(self.0, PhantomData),
            OneValue::<I, G>(self.1, item, PhantomData),
        )
        .put(out)
    }
}

/// Writes the values with the separator between them. No values are a mismatch. The separator must be a constant.
///
/// What follows may follow an item, and begins with no separator and item.
impl<
    I: Input,
    M: Allocator + Copy,
    C: Constant<I> + Drop,
    G: Writer<I, Error = C::Error> + Drop,
> Writer<I> for SeparatedList1<M, C, G> {
    ghost Form = { λ p v. SomeForm (G.Form p.next.second) (AfterSeparator (C.items p.next.first) (G.Form p.next.second)) v.items };

    ghost Fails = { λ p v. SomeFails (G.Form p.next.second) (G.Fails p.next.second) (AfterSeparator (C.items p.next.first) (G.Form p.next.second))
        (AfterFails (C.items p.next.first) (G.Fails p.next.second)) v.items };

    ghost Follow = { λ p rest. G.Follow p.next.second rest ×
        NoItem I.model (preceded_of I.model (C.grammar (C.state p.next.first)) (G.grammar (G.state p.next.second))).meaning rest };

    ghost CanWrite = { λ p. (C.Fits p.next.first × G.CanWrite p.next.second) ×
        ((rest : List I.Item) → G.Follow p.next.second (C.items p.next.first ++ rest)) };

    #[inline]
    fn write<S: Sink<I::Item>>(
        &self,
        value: &Vec<G::Output, M>,
        out: &mut S,
    ) -> Result<(), WriteError> {
        match value.as_slice().split_first() {
            None => Err(WriteError::Mismatch(out.len())),
            Some((first, others)) => InTurn(
                OneValue::<I, G>(&self.next.second, first, PhantomData),
                EachOf(
                    EachAfter::<I, C, G>(&self.next.first, &self.next.second, PhantomData),
                    others,
                    true,
                ),
            )
            .put(out),
        }
    }

    ghost reads = { λ p k c. separated_list1_reads I.lawful C.Error.errors (C.items p.next.first) c.1 (C.accepts p.next.first k.1.0 c.0.0)
        (G.reads p.next.second k.0 c.0.1) };

    ghost begins = { λ p. no_first };
}

/// Writes the values with the separator between them, or nothing. The separator must be a constant.
///
/// What follows may follow an item. It begins with no item, and with no separator and item.
impl<
    I: Input,
    M: Allocator + Copy,
    C: Constant<I> + Drop,
    G: Writer<I, Error = C::Error> + Drop,
> Writer<I> for SeparatedList0<M, C, G> {
    ghost Form = { λ p v. AnyForm (G.Form p.next.second) (AfterSeparator (C.items p.next.first) (G.Form p.next.second)) v.items };

    ghost Fails = { λ p v. AnyFails (G.Form p.next.second) (G.Fails p.next.second) (AfterSeparator (C.items p.next.first) (G.Form p.next.second))
        (AfterFails (C.items p.next.first) (G.Fails p.next.second)) v.items };

    ghost Follow = { λ p rest. G.Follow p.next.second rest ×
        NoItem I.model (preceded_of I.model (C.grammar (C.state p.next.first)) (G.grammar (G.state p.next.second))).meaning rest ×
        NoItem I.model (G.grammar (G.state p.next.second)).meaning rest };

    ghost CanWrite = { λ p. (C.Fits p.next.first × G.CanWrite p.next.second) ×
        ((rest : List I.Item) → G.Follow p.next.second (C.items p.next.first ++ rest)) };

    #[inline]
    fn write<S: Sink<I::Item>>(
        &self,
        value: &Vec<G::Output, M>,
        out: &mut S,
    ) -> Result<(), WriteError> {
        match value.as_slice().split_first() {
            None => Ok(()),
            Some((first, others)) => InTurn(
                OneValue::<I, G>(&self.next.second, first, PhantomData),
                EachOf(
                    EachAfter::<I, C, G>(&self.next.first, &self.next.second, PhantomData),
                    others,
                    true,
                ),
            )
            .put(out),
        }
    }

    ghost reads = { λ p k c. separated_list0_reads I.lawful C.Error.errors (C.items p.next.first) c.1 (C.accepts p.next.first k.1.0 c.0.0)
        (G.reads p.next.second k.0 c.0.1) };

    ghost begins = { λ p. no_first };
}
