//! Tags over texts.
ghost use Rattle.std.specs.Prelude.{◌≡◌, ◌≤◌, ◌⊎◌, length};
ghost use Rattle.nom_internal.specs.Prelude.{text_model};
ghost use Rattle.nom_write.specs.FirstSets.{first_of};
ghost use Rattle.nom_write.specs.Texts.{text_items};
ghost use Rattle.nom_write.specs.laws.FirstSetLaws.{fixed_begins};
ghost use Rattle.nom_write.specs.laws.TextReads.{text_tag_starts};
ghost use Rattle.nom_write.specs.Reads.{Holds};
ghost use Rattle.nom_sink.specs.Written.{LacksRoom, Written};
ghost use Rattle.nom_sink.specs.declared.error.WriteError.{WriteError};

use crate::writer::{Constant, Writer};
use nom_bytes::Tag;
use nom_error::value::ParseError;
use nom_sink::error::WriteError;
use nom_sink::sink::Sink;
use nom_sink::text::add_text;
use nom_traits::input::Items;

/// Adds the characters of a tag. On an error, `out` is as it was.
#[inline]
fn write_tag<S: Sink<char>>(tag: &str, out: &mut S) -> Result<(), WriteError>
    ensures written { Written (λ xs. xs ≡ text_items tag.now) (LacksRoom (length (text_items tag.now))) S.model out.old out.new result }
    ensures room { S.model.room out.old ≤ S.model.room out.new }
    ensures loan { S.model.loan out.new ≡ S.model.loan out.old }
{
    add_text(tag, out)
}

/// Writes the tag, if the value is equal to it. Any other value is a mismatch.
impl<'a, 'b, E: ParseError<&'a str>> Writer<&'a str> for Tag<&'b str, &'a str, E> {
    ghost use Rattle.nom_write.specs.laws.TextReads.{text_tag_reads};

    ghost Form = { λ p v xs. (xs ≡ text_items p.tag.now) × Holds text_model v (text_items p.tag.now) };

    ghost Fails = { λ p v s e. LacksRoom (length (text_items p.tag.now)) s e ⊎ ((v.now ≡ p.tag.now → ⊥) × (e ≡ WriteError.Mismatch s.start)) };

    ghost First = { λ p. first_of (λ c. c) (text_items p.tag.now) };

    #[inline]
    fn write<S: Sink<char>>(&self, value: &&'a str, out: &mut S) -> Result<(), WriteError> {
        let text = *value;
        text.known();
        if text == self.tag {
            write_tag(self.tag, out)
        } else {
            Err(WriteError::Mismatch(out.len()))
        }
    }

    ghost reads = { λ p k c. text_tag_reads E.errors p.tag.now };

    ghost begins = { λ p. fixed_begins (λ c. c) (text_items p.tag.now) (λ v xs f. f.0) (text_tag_starts E.errors p.tag.now) };
}

impl<'a, 'b, E: ParseError<&'a str>> Constant<&'a str> for Tag<&'b str, &'a str, E> {
    ghost use Rattle.nom_write.specs.laws.TextReads.{text_tag_reads_some};

    ghost items = { λ p. text_items p.tag.now };

    ghost Start = { λ p. first_of (λ c. c) (text_items p.tag.now) };

    #[inline(always)]
    fn write_constant<S: Sink<char>>(&self, out: &mut S) -> Result<(), WriteError> {
        write_tag(self.tag, out)
    }

    ghost accepts = { λ p k c. text_tag_reads_some E.errors p.tag.now };

    ghost others = { λ p. text_tag_starts E.errors p.tag.now };
}
