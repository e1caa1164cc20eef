//! Texts with escapes, returned with the escapes replaced.
ghost use Rattle.std.specs.Prelude.{◌≡◌, ℕ, List, [], OnOk, OnErr};
ghost use Rattle.nom_internal.specs.Prelude.{Built};
ghost use Rattle.nom_bytes_escaped.specs.declared.next_piece.Piece.{Piece};
ghost use Rattle.nom_bytes_escaped.specs.Texts.{AddAll, GrowsFor, GrowsForPiece, IsAppended, IsExtended};
ghost use Rattle.nom_bytes_escaped.specs.Escapes.{escaped_transform_meaning};
ghost use Rattle.nom_bytes_escaped.specs.Words as Words;

use crate::next_piece::{NextPiece, Piece, piece_at};
use nom_error::answer::{Err, Needed, OutOfMemory, PResult};
use nom_error::kind::ErrorKind;
use nom_error::mode::{Mode, OutputMode};
use nom_error::value::refusal;
use nom_internal::built::emitted;
use nom_internal::parser::{Parser, StreamParser};
use nom_search::extend::{Builder, ExtendInto};
use nom_traits::character::AsChar;
use nom_traits::input::{Input, Value};
use std::alloc::Allocator;

/// The parser that `escaped_transform` returns: a text whose pieces' values are put together.
#[derive(Drop)]
pub struct EscapedTransform<A, F, G> {
    pub alloc: A,
    pub normal: F,
    pub control_char: char,
    pub transform: G,
}

/// Returns an empty text, if texts are built.
#[inline(always)]
fn no_text<M: Mode, A: Allocator + Copy, X: Builder + Drop, I: ExtendInto<A, Extender = X>>(
    input: &I,
    alloc: A,
) -> Option<X>
    ensures { Built M.BUILDS (λ text. X.parts text ≡ []) result }
{
    if M::BUILDS {
        Some(input.new_builder(alloc))
    } else {
        None
    }
}

/// Appends a value, if texts are built. It fails only if the text has to grow for it.
#[inline(always)]
fn append<A: Allocator + Copy, X: Builder + Drop, O: ExtendInto<A, Extender = X> + Drop>(
    text: &mut Option<X>,
    value: Option<O>,
) -> Result<(), OutOfMemory>
    ensures kept { OnOk result (IsAppended X.parts O.added text.old value text.new) }
    ensures full { OnErr result (GrowsFor O.grows text.old value) }
{
    match (text, value) {
        (Some(text), Some(value)) => value.extend_into(text),
        _ => Ok(()),
    }
}

/// Appends the value of a piece, as `append` does.
#[inline(always)]
fn extend<
    A: Allocator + Copy,
    X: Builder + Drop,
    O: ExtendInto<A, Extender = X> + Drop,
    P: ExtendInto<A, Extender = X> + Drop,
>(text: &mut Option<X>, piece: Piece<Option<O>, Option<P>>) -> Result<(), OutOfMemory>
    ensures kept { OnOk result (IsExtended X.parts O.added P.added text.old piece text.new) }
    ensures full { OnErr result (GrowsForPiece O.grows P.grows text.old piece) }
{
    match piece {
        Piece::Normal(value) => append::<A, X, O>(text, value),
        Piece::Escapable(value) => append::<A, X, P>(text, value),
    }
}

impl<
    A: Allocator + Copy,
    X: Builder + Drop,
    C: AsChar + Value,
    I: Input<Item = C> + ExtendInto<A, Extender = X>,
    F: Parser<I> + Drop,
    G: Parser<I, Error = F::Error> + Drop,
> Parser<I> for EscapedTransform<A, F, G>
where
    F::Output: ExtendInto<A, Extender = X>,
    G::Output: ExtendInto<A, Extender = X>,
{
    ghost use Rattle.nom_bytes_escaped.specs.laws.EscapeLaws.{escaped_transform_lawful};

    type Output = X;

    type Error = F::Error;

    ghost State = { F.State × ℕ × G.State };

    ghost state = { λ p. (F.state p.normal, p.control_char, G.state p.transform) };

    ghost Tree = { List (Piece F.Tree G.Tree) };

    ghost grammar = { λ s. record {
      meaning = escaped_transform_meaning I.model F.Error.errors (λ x. C.code x ≡ s.1) (F.grammar s.0).meaning (G.grammar s.2).meaning;
      IsOutput = λ vs text. AddAll (F.grammar s.0).IsOutput (G.grammar s.2).IsOutput F.Output.added G.Output.added vs (X.parts text);
    } };

    ghost word = { λ s. Words.escaped_transform_of I.model F.Error.errors C.code X.parts F.Output.added G.Output.added (F.word s.0) s.1 (G.word s.2) };

    ghost worded = { λ s. Words.escaped_transform_worded I.model F.Error.errors C.code X.parts F.Output.added G.Output.added s.1 (F.worded s.0)
        (G.worded s.2) };

    #[inline]
    fn process<OM: OutputMode>(&mut self, input: I) -> PResult<I, X, F::Error> {
        input.known();
        let mut rest = input;
        let mut text = no_text::<OM::Output, A, X, I>(&input, self.alloc);
        loop {
            let (next, next_piece) = piece_at::<OM, I, F, G>(
                &mut self.normal,
                self.control_char,
                &mut self.transform,
                Needed::Unknown,
                rest,
            )?;
            match emitted(next_piece) {
                NextPiece::Found(piece) => {
                    extend::<A, X, F::Output, G::Output>(&mut text, piece)?;
                    if next.input_len() == rest.input_len() {
                        return Ok((rest, text));
                    }
                    rest = next;
                }
                NextPiece::Other => {
                    if rest.input_len() == input.input_len() {
                        return Err(refusal::<OM::Error, I, F::Error>(
                            input,
                            ErrorKind::EscapedTransform,
                        ));
                    }
                    return Ok((rest, text));
                }
                NextPiece::Dangling => {
                    return Err(refusal::<OM::Error, I, F::Error>(
                        rest,
                        ErrorKind::EscapedTransform,
                    ));
                }
                NextPiece::Done => return Ok((rest, text)),
            }
        }
    }

    ghost lawful = { λ s k. escaped_transform_lawful I.lawful F.Error.errors (λ x. C.code x ≡ s.1) (F.lawful s.0 k.1.0) (G.lawful s.2 k.1.1.1) };
}

impl<
    A: Allocator + Copy,
    X: Builder + Drop,
    C: AsChar + Value,
    I: Input<Item = C> + ExtendInto<A, Extender = X>,
    F: StreamParser<I> + Drop,
    G: StreamParser<I, Error = F::Error> + Drop,
> StreamParser<I> for EscapedTransform<A, F, G>
where
    F::Output: ExtendInto<A, Extender = X>,
    G::Output: ExtendInto<A, Extender = X>,
{
    ghost use Rattle.nom_bytes_escaped.specs.laws.EscapeLaws.{escaped_transform_steady};
    ghost use Rattle.nom_bytes_escaped.specs.Texts.{texts_pinned};

    ghost Pins = { λ p. F.Pins p.normal × G.Pins p.transform };

    ghost pinned = { λ p k h. texts_pinned X.parts F.Output.added G.Output.added X.views F.Output.views G.Output.views
        (F.pinned p.normal k.1.0 h.0) (G.pinned p.transform k.1.1.1 h.1) };

    ghost steady = { λ s k. escaped_transform_steady I.lawful F.Error.errors (λ x. C.code x ≡ s.1) (F.steady s.0 k.1.0) (G.steady s.2 k.1.1.1) };
}
