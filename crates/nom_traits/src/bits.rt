//! Inputs of bits.
//!
//! A pair of an input of bytes and a position is the list of the input's bits from that position on. The most
//! significant bit of each byte comes first, and each bit has length 1. Past the end the list is empty.
ghost use Rattle.std.specs.Prelude.{◌≡◌, true};
ghost use Rattle.nom_traits.specs.Bits.{bits_model, bits_lawful, bits_are_values};
ghost use Rattle.nom_traits.specs.BitPlaces.{AreBitsAlone, BeginsLater, GrowsByBytes, PassesBits, TellsMarks};
ghost use Rattle.nom_traits.specs.Bytes.{bytes_model};
ghost use Rattle.nom_traits.specs.Input.{input_len};

use crate::input::{Input, Items};
use crate::rests::{CountItems, CutRest};

impl<I: Items<Item = u8>> Items for (I, usize) {
    type Item = bool;

    ghost model = { bits_model I.model };

    #[inline(always)]
    fn known(self) {
        self.0.known();
    }

    ghost lawful = { bits_lawful I.model };

    ghost values = { λ i h. bits_are_values ((bits_model I.model).elements i) };
}

/// Returns the number of bits in an input of bits.
#[inline(always)]
fn bit_count<I: CountItems + Items<Item = u8>>(input: (I, usize)) -> u128
    ensures { result ≡ input_len (bits_model I.model) input }
{
    let (bytes, position) = input;
    let whole = 8 * bytes.item_count() as u128;
    whole.saturating_sub(position as u128)
}

/// Tells whether `kept` bytes from a bit on have fewer bits than `whole` bytes from another on, where both bits
/// stand in the first byte.
#[inline(always)]
fn begins_later(whole: usize, position: usize, kept: usize, left_position: usize) -> bool
    ensures { result ≡ true → BeginsLater whole position kept left_position }
{
    position < 8
        && left_position < 8
        && 0 < kept
        && (kept < whole || (kept == whole && position < left_position))
}

impl<I: Input<Item = u8> + CountItems> CutRest for (I, usize) {
    #[inline(always)]
    fn cut_rest(self, left: Self) -> Option<Self> {
        let (bytes, position) = self;
        let (left_bytes, left_position) = left;
        bytes.known();
        // Mostly both begin in a first byte. Then the bytes between them are counted, and not the bits.
        let have = bytes.item_count();
        let kept = left_bytes.item_count();
        if begins_later(have, position, kept, left_position) {
            return match bytes.slice_index(have - kept) {
                Ok(end) => Some((bytes.take_from(end), left_position)),
                Err(_) => unreachable!(),
            };
        }
        let whole = bit_count(self);
        let rest = bit_count(left);
        if rest > whole {
            return None;
        }
        if rest >= whole {
            return Some(self);
        }
        // There is a bit, so the position stands before the end.
        let place = 8 * bytes.item_count() as u128 - rest;
        match bytes.slice_index((place / 8) as usize) {
            Ok(end) => Some((bytes.take_from(end), (place % 8) as usize)),
            Err(_) => unreachable!(),
        }
    }
}

// What inputs of bits promise. These functions do nothing: their contracts are the promises.

/// A longer input of bits is longer by whole bytes, which may be any that may follow the input of bytes.
pub fn bits_grow_by_bytes<I: Items<Item = u8>>()
    ensures { GrowsByBytes I.model }
{}

/// The rest of `(x, o)` after `n` bits begins in `x` after `(n + o) / 8` bytes, at bit `(n + o) % 8`.
pub fn bits_pass<I: Items<Item = u8>>()
    ensures { PassesBits I.model }
{}

/// The mark of `(x, o)` determines the mark of `x` without its first `o / 8` bytes.
///
/// If inputs of bytes can differ in their marks, it also determines the `o % 8` bits passed of the next byte.
/// It determines nothing more.
pub fn bits_tell_marks<I: Items<Item = u8>>()
    ensures { TellsMarks I.model }
{}

/// Bits of slices of bytes have no mark. They are equal as models if their lists are equal, whatever bits
/// come before them.
pub fn bits_of_slices_have_no_mark()
    ensures { AreBitsAlone bytes_model }
{}
