//! Tags, and fronts of a given length.
ghost use Rattle.std.specs.Prelude.{◌≡◌, ◌⊎◌, length};
ghost use Rattle.nom_internal.specs.Prelude.{bytes_model};
ghost use Rattle.nom_write.specs.FirstSets.{first_of};
ghost use Rattle.nom_write.specs.laws.FirstSetLaws.{fixed_begins, no_first, tag_starts};
ghost use Rattle.nom_write.specs.Reads.{Holds};
ghost use Rattle.nom_sink.specs.Written.{LacksRoom};
ghost use Rattle.nom_sink.specs.declared.error.WriteError.{WriteError};

use crate::unmarked::Unmarked;
use crate::writer::{Constant, Writer};
use nom_bytes::{Tag, Take};
use nom_error::value::ParseError;
use nom_sink::error::WriteError;
use nom_sink::sink::Sink;
use nom_traits::input::Items;

/// Writes the tag, if the value is equal to it. Any other value is a mismatch.
impl<'a, 'b, E: ParseError<&'a [u8]>> Writer<&'a [u8]> for Tag<&'b [u8], &'a [u8], E> {
    ghost use Rattle.nom_write.specs.laws.LeafReads.{tag_reads};

    ghost Form = { λ p v xs. (xs ≡ p.tag.now) × Holds bytes_model v p.tag.now };

    ghost Fails = { λ p v s e. LacksRoom (length p.tag.now) s e ⊎ ((v.now ≡ p.tag.now → ⊥) × (e ≡ WriteError.Mismatch s.start)) };

    ghost First = { λ p. first_of (λ b. b) p.tag.now };

    #[inline(always)]
    fn write<S: Sink<u8>>(&self, value: &&'a [u8], out: &mut S) -> Result<(), WriteError> {
        let data = *value;
        data.known();
        if data == self.tag {
            out.add(self.tag)
        } else {
            Err(WriteError::Mismatch(out.len()))
        }
    }

    ghost reads = { λ p k c. tag_reads E.errors p.tag.now };

    ghost begins = { λ p. fixed_begins (λ b. b) p.tag.now (λ v xs f. f.0) (tag_starts E.errors p.tag.now) };
}

impl<'a, 'b, E: ParseError<&'a [u8]>> Constant<&'a [u8]> for Tag<&'b [u8], &'a [u8], E> {
    ghost use Rattle.nom_write.specs.laws.LeafReads.{tag_reads_some};

    ghost items = { λ p. p.tag.now };

    ghost Start = { λ p. first_of (λ b. b) p.tag.now };

    #[inline(always)]
    fn write_constant<S: Sink<u8>>(&self, out: &mut S) -> Result<(), WriteError> {
        out.add(self.tag)
    }

    ghost accepts = { λ p k c. tag_reads_some E.errors p.tag.now };

    ghost others = { λ p. tag_starts E.errors p.tag.now };
}

/// Writes exactly as many items as the parser takes. A value of another length is a mismatch.
impl<I: Unmarked, E: ParseError<I>> Writer<I> for Take<I, E> {
    ghost use Rattle.nom_write.specs.laws.LeafReads.{take_value_reads};

    ghost Form = { λ p v xs. (length xs ≡ p.count) × Holds I.model v xs };

    ghost Fails = { λ p v s e. ((length (I.model.elements v) ≡ p.count → ⊥) × (e ≡ WriteError.Mismatch s.start)) ⊎ LacksRoom p.count s e };

    #[inline(always)]
    fn write<S: Sink<I::Item>>(&self, value: &I, out: &mut S) -> Result<(), WriteError> {
        (*value).known();
        if value.count_items() == self.count {
            value.add_to(out)
        } else {
            Err(WriteError::Mismatch(out.len()))
        }
    }

    ghost reads = { λ p k c. take_value_reads I.model E.errors I.lack p.count I.one_mark };

    ghost begins = { λ p. no_first };
}
