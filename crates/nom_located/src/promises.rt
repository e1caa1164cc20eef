//! Promises about the places of inputs. These functions do nothing: their contracts are the promises.
ghost use Rattle.std.specs.Prelude.{◌≡◌, chars, count_by, length, take};
ghost use Rattle.nom_traits.specs.Input.{IsPrefixOf, IsSuffixOf};
ghost use Rattle.nom_located.specs.Lines.{begins_character};
ghost use Rattle.nom_located.specs.Located.{IsAfter, place, located_model};

use crate::located::Located;
use nom_search::bytes::ByteItems;
use nom_traits::input::{Input, Items};

/// The place of a rest follows from the place of the input and the bytes before the rest.
///
/// Their number is added to the offset, and the number of those that are 10 is added to the line. The column
/// is 1 plus the number of bytes after the last 10. If there is no such byte, the number of all bytes is
/// added to the column.
pub fn stands_after<I: Input + ByteItems, X: Copy>(
    input: Located<I, X>,
    _length: usize,
    _rest: Located<I, X>,
)
    requires { IsSuffixOf (located_model (λ x. x.fragment) (λ x. place x.offset x.line x.column) (λ x. x.extra) I.read I.model) input _length _rest }
    ensures { IsAfter (place input.offset input.line input.column) (take _length (I.bytes input.fragment)) (place _rest.offset _rest.line _rest.column) }
{
    input.known();
}

/// A prefix has the place of the input.
pub fn stands_there<I: Input + ByteItems, X: Copy>(
    _input: Located<I, X>,
    _length: usize,
    _front: Located<I, X>,
)
    requires { IsPrefixOf (located_model (λ x. x.fragment) (λ x. place x.offset x.line x.column) (λ x. x.extra) I.read I.model) _input _length _front }
    ensures { place _front.offset _front.line _front.column ≡ place _input.offset _input.line _input.column }
{}

/// A rest has the label of the input.
pub fn rest_keeps_extra<I: Input + ByteItems, X: Copy>(
    input: Located<I, X>,
    _length: usize,
    _rest: Located<I, X>,
)
    requires { IsSuffixOf (located_model (λ x. x.fragment) (λ x. place x.offset x.line x.column) (λ x. x.extra) I.read I.model) input _length _rest }
    ensures { _rest.extra ≡ input.extra }
{
    input.known();
}

/// A prefix has the label of the input.
pub fn front_keeps_extra<I: Input + ByteItems, X: Copy>(
    _input: Located<I, X>,
    _length: usize,
    _front: Located<I, X>,
)
    requires { IsPrefixOf (located_model (λ x. x.fragment) (λ x. place x.offset x.line x.column) (λ x. x.extra) I.read I.model) _input _length _front }
    ensures { _front.extra ≡ _input.extra }
{}

/// A text has as many bytes that begin a character as characters. `utf8_column` therefore counts characters.
pub fn counts_characters(_text: &str)
    ensures { count_by begins_character _text.now ≡ length (chars _text.now) }
{}
