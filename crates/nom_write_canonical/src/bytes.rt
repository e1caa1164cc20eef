//! Tags, and pieces of a given length.
ghost use Rattle.nom_write_canonical.specs.laws.LeafForms.{tag_accepts, tag_only, take_accepts};
ghost use Rattle.nom_write_canonical.specs.laws.ListForms.{held_one};
ghost use Rattle.nom_write_canonical.specs.laws.SequenceForms.{items_one, one_beside};

use crate::canonical::{Canonical, CanonicalConstant};
use nom_bytes::{Tag, Take};
use nom_error::value::ParseError;
use nom_write::unmarked::Unmarked;

impl<'a, 'b, E: ParseError<&'a [u8]>> Canonical<&'a [u8]> for Tag<&'b [u8], &'a [u8], E> {
    ghost accepts_forms = { λ p c. tag_accepts E.errors p.tag.now };

    ghost one_form = { λ p c v. one_beside (λ xs f. f.0) (items_one p.tag.now) };
}

impl<'a, 'b, E: ParseError<&'a [u8]>> CanonicalConstant<&'a [u8]> for Tag<&'b [u8], &'a [u8], E> {
    ghost accepts_items = { λ p. tag_only E.errors p.tag.now };
}

impl<I: Unmarked, E: ParseError<I>> Canonical<I> for Take<I, E> {
    ghost accepts_forms = { λ p c. take_accepts I.model E.errors I.lack p.count };

    ghost one_form = { λ p c v. one_beside (λ xs f. f.1) held_one };
}
