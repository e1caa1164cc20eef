//! Pieces of a writer and what it writes.
ghost use Rattle.std.specs.Prelude.{◌≡◌, length};
ghost use Rattle.nom_sink.specs.Written.{LacksRoom};

use crate::unmarked::Unmarked;
use crate::writer::{Constant, Writer};
use nom_sink::error::WriteError;
use nom_sink::items::PutItem;
use nom_sink::piece::Piece;
use nom_sink::sink::Sink;
use nom_traits::input::Items;
use std::marker::PhantomData;

/// A writer, with the value that it writes.
#[derive(Drop)]
pub(crate) struct OneValue<'a, I: Items, P: Writer<I>>(
    pub &'a P,
    pub &'a P::Output,
    pub PhantomData<I>,
);

impl<'a, I: Items, P: Writer<I>> Piece<I::Item> for OneValue<'a, I, P> {
    ghost Form = { λ o. P.Form o.0.now o.1.now };

    ghost Fails = { λ o. P.Fails o.0.now o.1.now };

    ghost CanPut = { λ o. P.CanWrite o.0.now };

    #[inline(always)]
    fn put<S: Sink<I::Item>>(&self, out: &mut S) -> Result<(), WriteError> {
        self.0.write(self.1, out)
    }
}

/// A writer that needs no value.
#[derive(Drop)]
pub(crate) struct Fixed<'a, I: Items, C: Constant<I>>(pub &'a C, pub PhantomData<I>);

impl<'a, I: Items, C: Constant<I>> Piece<I::Item> for Fixed<'a, I, C> {
    ghost Form = { λ o xs. xs ≡ C.items o.0.now };

    ghost Fails = { λ o. LacksRoom (length (C.items o.0.now)) };

    ghost CanPut = { λ o. C.Fits o.0.now };

    #[inline(always)]
    fn put<S: Sink<I::Item>>(&self, out: &mut S) -> Result<(), WriteError> {
        self.0.write_constant(out)
    }
}

/// The items of an input.
#[derive(Drop)]
pub(crate) struct AllItems<I>(pub I);

impl<I: Unmarked> Piece<I::Item> for AllItems<I> {
    ghost Form = { λ o xs. xs ≡ I.model.elements o.0 };

    ghost Fails = { λ o. LacksRoom (length (I.model.elements o.0)) };

    #[inline(always)]
    fn put<S: Sink<I::Item>>(&self, out: &mut S) -> Result<(), WriteError> {
        self.0.add_to(out)
    }
}

/// A writer of each item.
#[derive(Drop)]
pub(crate) struct EachValue<'a, I: Items, P: Writer<I>>(pub &'a P, pub PhantomData<I>);

impl<'a, I: Items, P: Writer<I>> PutItem<I::Item> for EachValue<'a, I, P> {
    type Item = P::Output;

    ghost Form = { λ o. P.Form o.0.now };

    ghost Fails = { λ o. P.Fails o.0.now };

    ghost CanPut = { λ o. P.CanWrite o.0.now };

    #[inline(always)]
    fn put_item<S: Sink<I::Item>>(&self, item: &P::Output, out: &mut S) -> Result<(), WriteError> {
        self.0.write(item, out)
    }
}
