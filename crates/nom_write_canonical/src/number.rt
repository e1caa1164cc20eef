//! Binary integers.
ghost use Rattle.std.specs.Prelude.{◌∷◌, []};
ghost use Rattle.nom_number.specs.Numbers.{binary_number};
ghost use Rattle.nom_write_canonical.specs.laws.LeafForms.{number_accepts};
ghost use Rattle.nom_write_canonical.specs.laws.NumberForms.{BitsOfNumber, binary_one, byte_accepts, signed_bits};
ghost use Rattle.nom_write_canonical.specs.laws.SequenceForms.{items_one};

use crate::canonical::Canonical;
use nom_error::value::ParseError;
use nom_number::layout::{I8, I16, I24, I32, I64, I128, U8, U16, U24, U32, U64, U128};
use nom_number::{BeU8, Binary};
use nom_sink::bits::ToBits;
use nom_traits::input::Input;

impl<I: Input<Item = u8>, E: ParseError<I>> Canonical<I> for BeU8<I, E> {
    ghost accepts_forms = { λ p c. byte_accepts I.model E.errors };

    ghost one_form = { λ p c v. items_one (v ∷ []) };
}

/// A layout in which different bits are different numbers.
pub trait CanonicalBits: ToBits {
    /// Bits of one number are the same.
    ghost one_bits: { BitsOfNumber Self.of_bits Self.BYTES };
}

impl CanonicalBits for U8 {
    ghost one_bits = { λ a b h k e. e };
}

impl CanonicalBits for U16 {
    ghost one_bits = { λ a b h k e. e };
}

impl CanonicalBits for U24 {
    ghost one_bits = { λ a b h k e. e };
}

impl CanonicalBits for U32 {
    ghost one_bits = { λ a b h k e. e };
}

impl CanonicalBits for U64 {
    ghost one_bits = { λ a b h k e. e };
}

impl CanonicalBits for U128 {
    ghost one_bits = { λ a b h k e. e };
}

impl CanonicalBits for I8 {
    ghost one_bits = { λ a b h k e. signed_bits 8 a b h k e };
}

impl CanonicalBits for I16 {
    ghost one_bits = { λ a b h k e. signed_bits 16 a b h k e };
}

impl CanonicalBits for I24 {
    ghost one_bits = { λ a b h k e. signed_bits 24 a b h k e };
}

impl CanonicalBits for I32 {
    ghost one_bits = { λ a b h k e. signed_bits 32 a b h k e };
}

impl CanonicalBits for I64 {
    ghost one_bits = { λ a b h k e. signed_bits 64 a b h k e };
}

impl CanonicalBits for I128 {
    ghost one_bits = { λ a b h k e. signed_bits 128 a b h k e };
}

impl<F: CanonicalBits, I: Input<Item = u8>, E: ParseError<I>> Canonical<I> for Binary<F, I, E> {
    ghost accepts_forms = { λ p c. number_accepts I.model E.errors (λ bytes. F.of_bits (binary_number p.endian bytes)) F.BYTES };

    ghost one_form = { λ p c v. binary_one F.of_bits p.endian F.BYTES F.one_bits v };
}
