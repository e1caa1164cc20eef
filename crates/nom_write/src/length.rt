//! Parts after their length.
ghost use Rattle.std.specs.Prelude.{◌≡◌, ◌<◌, ℕ, false, List, [], MatchOption, length};
ghost use Rattle.nom_write.specs.laws.FirstSetLaws.{no_first};
ghost use Rattle.nom_sink.specs.Lists.{EachForm, EachFail, ItemFails, ItemForm};
ghost use Rattle.nom_sink.specs.Parts.{AfterLength, AfterLengthFails, Both, BothFail};
ghost use Rattle.nom_write.specs.Reads.{Holds};
ghost use Rattle.nom_write.specs.Lengths.{FormOfSize, SizeFails};
ghost use Rattle.nom_sink.specs.Written.{LacksRoom, Space};

use crate::piece::{AllItems, EachValue, OneValue};
use crate::unmarked::{UnitItems, Unmarked};
use crate::writer::Writer;
use nom_multi::{LengthCount, LengthData, LengthValue};
use nom_sink::error::WriteError;
use nom_sink::items::{EachOf, Measured, PutItem};
use nom_sink::piece::{InTurn, Piece};
use nom_sink::sink::Sink;
use nom_traits::convert::ToUsize;
use nom_traits::input::Items;
use std::alloc::Allocator;
use std::marker::PhantomData;

/// A number type that holds sizes.
pub trait OfSize: ToUsize {
    /// The sizes that it can't hold.
    ghost Exceeds: { ℕ → Type 0 } = { λ _. ⊥ };

    /// Returns the number that stands for `size`, or `None` if the type can't hold it.
    fn of_size(size: usize) -> Option<Self>
        ensures { MatchOption result (Exceeds size) (λ n. Self.size n ≡ size) };
}

impl OfSize for u8 {
    ghost Exceeds = { λ n. 255 < n };

    #[inline(always)]
    fn of_size(size: usize) -> Option<u8> {
        if size < 0x100 { Some(size as u8) } else { None }
    }
}

impl OfSize for u16 {
    ghost Exceeds = { λ n. 65535 < n };

    #[inline(always)]
    fn of_size(size: usize) -> Option<u16> {
        if size < 0x10000 {
            Some(size as u16)
        } else {
            None
        }
    }
}

impl OfSize for u32 {
    ghost Exceeds = { λ n. 4294967295 < n };

    #[inline(always)]
    fn of_size(size: usize) -> Option<u32> {
        if size < 0x100000000 {
            Some(size as u32)
        } else {
            None
        }
    }
}

impl OfSize for u64 {
    #[inline(always)]
    fn of_size(size: usize) -> Option<u64> {
        Some(size as u64)
    }
}

impl OfSize for usize {
    #[inline(always)]
    fn of_size(size: usize) -> Option<usize> {
        Some(size)
    }
}

/// A number of that size, by its writer.
#[derive(Drop)]
struct SizeOf<'a, I: Items, F: Writer<I, Output: OfSize>>(&'a F, usize, PhantomData<I>);

impl<'a, I: Items, F: Writer<I, Output: OfSize>> Piece<I::Item> for SizeOf<'a, I, F> {
    ghost Form = { λ o. FormOfSize F.Output.size (F.Form o.0.now) o.1 };

    ghost Fails = { λ o. SizeFails F.Output.size F.Output.Exceeds (F.Fails o.0.now) o.1 };

    ghost CanPut = { λ o. F.CanWrite o.0.now };

    #[inline(always)]
    fn put<S: Sink<I::Item>>(&self, out: &mut S) -> Result<(), WriteError> {
        match F::Output::of_size(self.1) {
            Some(number) => self.0.write(&number, out),
            None => Err(WriteError::TooLong(out.len())),
        }
    }
}

/// Writes the number of the items, and the items. A number that its field can't hold is `TooLong`.
impl<I: Unmarked, F: Writer<I, Output: OfSize> + Drop> Writer<I> for LengthData<F> {
    ghost use Rattle.nom_write.specs.laws.LengthReads.{length_data_reads};

    ghost Form = { λ p v. Both (FormOfSize F.Output.size (F.Form p.parser) (length (I.model.elements v))) (Holds I.model v) };

    ghost Fails = { λ p v. BothFail (FormOfSize F.Output.size (F.Form p.parser) (length (I.model.elements v)))
        (SizeFails F.Output.size F.Output.Exceeds (F.Fails p.parser) (length (I.model.elements v))) (LacksRoom (length (I.model.elements v))) };

    ghost CanWrite = { λ p. F.CanWrite p.parser × ((rest : List I.Item) → F.Follow p.parser rest) };

    #[inline(always)]
    fn write<S: Sink<I::Item>>(&self, value: &I, out: &mut S) -> Result<(), WriteError> {
        (*value).known();
        InTurn(
            SizeOf::<I, F>(&self.parser, value.count_items(), PhantomData),
            AllItems(*value),
        )
        .put(out)
    }

    ghost reads = { λ p k c. length_data_reads I.lawful F.Error.errors F.Output.size k.1.1 c.1 (F.reads p.parser k.0 c.0) I.lack I.one_mark };

    ghost begins = { λ p. no_first };
}

/// A number of a given size, by its writer.
#[derive(Drop)]
struct EachSize<'a, I: Items, F: Writer<I, Output: OfSize>>(&'a F, PhantomData<I>);

impl<'a, I: Items, F: Writer<I, Output: OfSize>> PutItem<I::Item> for EachSize<'a, I, F> {
    type Item = usize;

    ghost Form = { λ o. FormOfSize F.Output.size (F.Form o.0.now) };

    ghost Fails = { λ o. SizeFails F.Output.size F.Output.Exceeds (F.Fails o.0.now) };

    ghost CanPut = { λ o. F.CanWrite o.0.now };

    #[inline(always)]
    fn put_item<S: Sink<I::Item>>(&self, item: &usize, out: &mut S) -> Result<(), WriteError> {
        SizeOf::<I, F>(self.0, *item, PhantomData).put(out)
    }
}

/// Writes the length of the part's form, and that form. A length that its number can't hold is `TooLong`.
///
/// The part must read its form back at the end of an input. A place within the part is counted without the length.
impl<
    I: UnitItems,
    F: Writer<I, Output: OfSize> + Drop,
    G: Writer<I, Error = F::Error> + Drop,
> Writer<I> for LengthValue<F, G> {
    ghost use Rattle.nom_write.specs.laws.LengthReads.{length_value_reads};

    ghost Form = { λ p v. AfterLength (FormOfSize F.Output.size (F.Form p.length)) (G.Form p.parser v) };

    ghost Fails = { λ p v. AfterLengthFails (SizeFails F.Output.size F.Output.Exceeds (F.Fails p.length)) (G.Form p.parser v)
        (G.Fails p.parser v) };

    ghost CanWrite = { λ p. (F.CanWrite p.length × G.CanWrite p.parser) × ((rest : List I.Item) → F.Follow p.length rest) ×
        G.Follow p.parser [] };

    #[inline]
    fn write<S: Sink<I::Item>>(&self, value: &G::Output, out: &mut S) -> Result<(), WriteError> {
        Measured(
            EachSize::<I, F>(&self.length, PhantomData),
            OneValue::<I, G>(&self.parser, value, PhantomData),
        )
        .put(out)
    }

    ghost reads = { λ p k c. length_value_reads I.lawful F.Error.errors F.Output.size k.1.1 c.1 (F.reads p.length k.0 c.0.0) I.one_each c.2
        (G.reads p.parser k.1.0 c.0.1) };

    ghost begins = { λ p. no_first };
}

/// Writes the number of the values, and each of them. A number that its field can't hold is `TooLong`.
impl<
    I: Items,
    M: Allocator + Copy,
    F: Writer<I, Output: OfSize> + Drop,
    G: Writer<I, Error = F::Error> + Drop,
> Writer<I> for LengthCount<M, F, G> {
    ghost use Rattle.nom_write.specs.laws.LengthReads.{length_count_reads};

    ghost Form = { λ p v. Both (FormOfSize F.Output.size (F.Form p.length) (length v.items)) (EachForm (ItemForm false (G.Form p.parser)) v.items) };

    ghost Fails = { λ p v. BothFail (FormOfSize F.Output.size (F.Form p.length) (length v.items))
        (SizeFails F.Output.size F.Output.Exceeds (F.Fails p.length) (length v.items)) (EachFail (ItemForm false (G.Form p.parser))
        (ItemFails false (G.Form p.parser) (G.Fails p.parser)) v.items) };

    ghost CanWrite = { λ p. (F.CanWrite p.length × G.CanWrite p.parser) × ((rest : List I.Item) → F.Follow p.length rest) ×
        ((rest : List I.Item) → G.Follow p.parser rest) };

    #[inline]
    fn write<S: Sink<I::Item>>(
        &self,
        value: &Vec<G::Output, M>,
        out: &mut S,
    ) -> Result<(), WriteError> {
        let values = value.as_slice();
        InTurn(
            SizeOf::<I, F>(&self.length, values.len(), PhantomData),
            EachOf(EachValue::<I, G>(&self.parser, PhantomData), values, false),
        )
        .put(out)
    }

    ghost reads = { λ p k c. length_count_reads I.lawful F.Error.errors F.Output.size k.1.1 c.1 (F.reads p.length k.0 c.0.0) c.2
        (G.reads p.parser k.1.0 c.0.1) };

    ghost begins = { λ p. no_first };
}
