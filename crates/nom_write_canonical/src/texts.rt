//! Tags over texts.
ghost use Rattle.nom_write.specs.Texts.{text_items};
ghost use Rattle.nom_write_canonical.specs.laws.SequenceForms.{items_one, one_beside};
ghost use Rattle.nom_write_canonical.specs.laws.TextForms.{text_tag_accepts, text_tag_only};

use crate::canonical::{Canonical, CanonicalConstant};
use nom_bytes::Tag;
use nom_error::value::ParseError;

impl<'a, 'b, E: ParseError<&'a str>> Canonical<&'a str> for Tag<&'b str, &'a str, E> {
    ghost accepts_forms = { λ p c. text_tag_accepts E.errors p.tag.now };

    ghost one_form = { λ p c v. one_beside (λ xs f. f.0) (items_one (text_items p.tag.now)) };
}

impl<'a, 'b, E: ParseError<&'a str>> CanonicalConstant<&'a str> for Tag<&'b str, &'a str, E> {
    ghost accepts_items = { λ p. text_tag_only E.errors p.tag.now };
}
