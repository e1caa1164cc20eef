//! Bit fields, and parsers of bits among parsers of bytes.
ghost use Rattle.std.specs.Prelude.{◌≡◌, ◌%◌, ◌≤◌, ◌∷◌, [], Bool, List, length};
ghost use Rattle.nom_write_canonical.specs.laws.FieldForms.{bits_one, bool_accepts, tag_bits_accepts, tag_bits_only, take_bits_accepts};
ghost use Rattle.nom_write_canonical.specs.laws.GroupForms.{bits_accepts, group_one};
ghost use Rattle.nom_write_canonical.specs.laws.SequenceForms.{items_one, one_beside};

use crate::canonical::{Canonical, CanonicalConstant};
use nom_bits::{BitUint, Bits, Bool, ErrorConvert, Tag, Take};
use nom_error::value::ParseError;
use nom_traits::input::Input;

/// The type must have as many bits as are taken.
impl<I: Input<Item = u8>, O: BitUint + Copy, E: ParseError<(I, usize)>> Canonical<(I, usize)>
    for Take<I, O, E> {
    ghost IsCanonical = { λ p. p.count ≤ O.WIDTH };

    ghost accepts_forms = { λ p c. take_bits_accepts I.model E.errors O.of_bits O.bits O.WIDTH O.kept p.count c };

    ghost one_form = { λ p c v. bits_one p.count (O.bits v) };
}

/// The type must have as many bits as are taken.
impl<I: Input<Item = u8>, O: BitUint + Copy, E: ParseError<(I, usize)>> Canonical<(I, usize)>
    for Tag<I, O, E> {
    ghost IsCanonical = { λ p. p.count ≤ O.WIDTH };

    ghost accepts_forms = { λ p c. tag_bits_accepts I.model E.errors O.of_bits O.bits O.WIDTH O.kept p.count p.pattern c };

    ghost one_form = { λ p c v. one_beside (λ xs f. f.1) (bits_one p.count p.pattern) };
}

impl<I: Input<Item = u8>, O: BitUint + Copy, E: ParseError<(I, usize)>> CanonicalConstant<
    (I, usize),
> for Tag<I, O, E> {
    ghost accepts_items = { λ p. tag_bits_only I.model E.errors O.of_bits O.bits O.WIDTH O.kept p.count p.pattern };
}

impl<I: Input<Item = u8>, E: ParseError<(I, usize)>> Canonical<(I, usize)> for Bool<I, E> {
    ghost accepts_forms = { λ p c. bool_accepts I.model E.errors };

    ghost one_form = { λ p c v. items_one (v ∷ []) };
}

/// Each form must fill whole bytes, because the parser ignores the rest of a byte. It must have 256 bits or fewer, because more are `TooLong`.
impl<I: Input<Item = u8>, P: Canonical<(I, usize)> + Drop, E: ParseError<I>> Canonical<I>
    for Bits<P, E>
where
    P::Error: ErrorConvert<E>,
{
    ghost IsCanonical = { λ p. P.IsCanonical p.parser × ((v : P.Output) (bs : List Bool) → P.Form p.parser v bs → (length bs % 8 ≡ 0) ×
        (length bs ≤ 256)) };

    ghost accepts_forms = { λ p c. bits_accepts I.model P.Error.converts (λ v bs f. (c.1 v bs f).0) (P.accepts_forms p.parser c.0) };

    ghost one_form = { λ p c v. group_one (P.one_form p.parser c.0 v) };
}
