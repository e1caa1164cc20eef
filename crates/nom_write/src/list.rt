//! Lists without a separator.
ghost use Rattle.std.specs.Prelude.{◌≡◌, ◌≤◌, ◌⊎◌, ℕ, true, false, List, length};
ghost use Rattle.nom_sink.specs.Parts.{Both, BothFail};
ghost use Rattle.nom_write.specs.FirstSets.{AreDisjoint};
ghost use Rattle.nom_write.specs.laws.FirstSetLaws.{no_first};
ghost use Rattle.nom_sink.specs.Lists.{EachForm, EachFail, ItemFails, ItemForm};
ghost use Rattle.nom_write.specs.Reads.{NoItem};
ghost use Rattle.nom_write.specs.Separated.{SomeFails, SomeForm};
ghost use Rattle.nom_sink.specs.Written.{Space, Written};
ghost use Rattle.nom_sink.specs.declared.error.WriteError.{WriteError};

use crate::piece::{EachValue, OneValue};
use crate::writer::Writer;
use nom_multi::{Count, Many0, Many1, ManyTill};
use nom_sink::error::WriteError;
use nom_sink::items::{EachOf, put_each};
use nom_sink::piece::{InTurn, Piece};
use nom_sink::sink::Sink;
use nom_traits::input::{Input, Items};
use std::alloc::Allocator;
use std::marker::PhantomData;

/// Writes each value. A value with an empty form is a mismatch. No item may follow.
impl<I: Input, M: Allocator + Copy, G: Writer<I> + Drop> Writer<I> for Many0<M, G> {
    ghost use Rattle.nom_write.specs.laws.ListReads.{many0_reads};

    ghost Form = { λ p v. EachForm (ItemForm true (G.Form p.parser)) v.items };

    ghost Fails = { λ p v. EachFail (ItemForm true (G.Form p.parser)) (ItemFails true (G.Form p.parser) (G.Fails p.parser)) v.items };

    ghost Follow = { λ p. NoItem I.model (G.grammar (G.state p.parser)).meaning };

    ghost CanWrite = { λ p. G.CanWrite p.parser × ((rest : List I.Item) → G.Follow p.parser rest) };

    #[inline]
    fn write<S: Sink<I::Item>>(
        &self,
        value: &Vec<G::Output, M>,
        out: &mut S,
    ) -> Result<(), WriteError> {
        put_each(
            &EachValue::<I, G>(&self.parser, PhantomData),
            value.as_slice(),
            true,
            out,
        )
    }

    ghost reads = { λ p k c. many0_reads I.lawful G.Error.errors c.1 (G.reads p.parser k c.0) };

    ghost begins = { λ p. no_first };
}

/// Writes each value, at least one. No values are a mismatch. So is a value with an empty form after the first. No item may follow.
impl<I: Input, M: Allocator + Copy, G: Writer<I> + Drop> Writer<I> for Many1<M, G> {
    ghost use Rattle.nom_write.specs.laws.SeparatedReads.{many1_reads};

    ghost Form = { λ p v. SomeForm (G.Form p.parser) (G.Form p.parser) v.items };

    ghost Fails = { λ p v. SomeFails (G.Form p.parser) (G.Fails p.parser) (G.Form p.parser) (G.Fails p.parser) v.items };

    ghost Follow = { λ p. NoItem I.model (G.grammar (G.state p.parser)).meaning };

    ghost CanWrite = { λ p. G.CanWrite p.parser × ((rest : List I.Item) → G.Follow p.parser rest) };

    #[inline]
    fn write<S: Sink<I::Item>>(
        &self,
        value: &Vec<G::Output, M>,
        out: &mut S,
    ) -> Result<(), WriteError> {
        match value.as_slice().split_first() {
            None => Err(WriteError::Mismatch(out.len())),
            Some((first, others)) => InTurn(
                OneValue::<I, G>(&self.parser, first, PhantomData),
                EachOf(EachValue::<I, G>(&self.parser, PhantomData), others, true),
            )
            .put(out),
        }
    }

    ghost reads = { λ p k c. many1_reads I.lawful G.Error.errors c.1 (G.reads p.parser k.0 c.0) };

    ghost begins = { λ p. no_first };
}

/// Writes each value, if their number is the parser's count. Any other number is a mismatch.
impl<I: Items, M: Allocator + Copy, G: Writer<I> + Drop> Writer<I> for Count<M, G> {
    ghost use Rattle.nom_write.specs.laws.ListReads.{count_reads};

    ghost Form = { λ p v xs. (length v.items ≡ p.count) × EachForm (ItemForm false (G.Form p.parser)) v.items xs };

    ghost Fails = { λ p v s e. ((length v.items ≡ p.count → ⊥) × (e ≡ WriteError.Mismatch s.start)) ⊎
        EachFail (ItemForm false (G.Form p.parser)) (ItemFails false (G.Form p.parser) (G.Fails p.parser)) v.items s e };

    ghost CanWrite = { λ p. G.CanWrite p.parser × ((rest : List I.Item) → G.Follow p.parser rest) };

    #[inline]
    fn write<S: Sink<I::Item>>(
        &self,
        value: &Vec<G::Output, M>,
        out: &mut S,
    ) -> Result<(), WriteError> {
        let values = value.as_slice();
        if values.len() == self.count {
            put_each(
                &EachValue::<I, G>(&self.parser, PhantomData),
                values,
                false,
                out,
            )
        } else {
            Err(WriteError::Mismatch(out.len()))
        }
    }

    ghost reads = { λ p k c. count_reads I.lawful G.Error.errors c.1 (G.reads p.parser k c.0) p.count };

    ghost begins = { λ p. no_first };
}

/// Writes each value, and then the end. A value with an empty form is a mismatch. The end must refuse what an item begins with.
impl<
    I: Input,
    M: Allocator + Copy,
    F: Writer<I> + Drop,
    G: Writer<I, Error = F::Error> + Drop,
> Writer<I> for ManyTill<M, F, G> {
    ghost use Rattle.nom_write.specs.laws.TillReads.{end_apart, many_till_reads};

    ghost Form = { λ p v. Both (EachForm (ItemForm true (F.Form p.parser)) v.0.items) (G.Form p.end v.1) };

    ghost Fails = { λ p v. BothFail (EachForm (ItemForm true (F.Form p.parser)) v.0.items) (EachFail (ItemForm true (F.Form p.parser))
        (ItemFails true (F.Form p.parser) (F.Fails p.parser)) v.0.items) (G.Fails p.end v.1) };

    ghost Follow = { λ p. G.Follow p.end };

    ghost CanWrite = { λ p. (F.CanWrite p.parser × G.CanWrite p.end) × ((rest : List I.Item) → F.Follow p.parser rest) ×
        AreDisjoint I.model (G.grammar (G.state p.end)) (G.First p.end) (F.Form p.parser) (F.First p.parser) };

    #[inline]
    fn write<S: Sink<I::Item>>(
        &self,
        value: &(Vec<F::Output, M>, G::Output),
        out: &mut S,
    ) -> Result<(), WriteError> {
        InTurn(
            EachOf(
                EachValue::<I, F>(&self.parser, PhantomData),
                value.0.as_slice(),
                true,
            ),
            OneValue::<I, G>(&self.end, &value.1, PhantomData),
        )
        .put(out)
    }

    ghost reads = { λ p k c. many_till_reads I.lawful F.Error.errors c.1 (end_apart (G.begins p.end) (F.begins p.parser) c.2)
        (F.reads p.parser k.1 c.0.0) (G.reads p.end k.0 c.0.1) };

    ghost begins = { λ p. no_first };
}
