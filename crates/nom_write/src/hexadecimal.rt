//! Numbers in hexadecimal digits.
ghost use Rattle.std.specs.Prelude.{◌<◌, ◌^◌};
ghost use Rattle.nom_character.specs.ClassRuns.{IsOf};
ghost use Rattle.nom_sink.specs.Numerals.{AreDigitsOf, LacksDigits};
ghost use Rattle.nom_traits.specs.declared.character.AsciiClass.TheVariants as Class;
ghost use Rattle.nom_write.specs.Runs.{BeginsOther};
ghost use Rattle.nom_write.specs.laws.HexReads.{hex_reads};
ghost use Rattle.nom_write.specs.laws.FirstSetLaws.{no_first};

use crate::writer::Writer;
use nom_error::value::ParseError;
use nom_number_text::HexU32;
use nom_sink::error::WriteError;
use nom_sink::radix::{OfCode, Sixteen, write_digits};
use nom_sink::sink::Sink;
use nom_traits::character::AsChar;
use nom_traits::input::Input;
use std::marker::PhantomData;

/// Parses a number of at most eight hexadecimal digits, and writes one.
///
/// It parses as `hex_u32` of `nom::number::streaming` and `nom::number::complete`, in the requested mode.
#[inline(always)]
pub fn hex_u32<I, E>() -> HexU32<I, E> {
    HexU32 { error: PhantomData }
}

/// Writes the digits of a number in lower case, without leading zeros. No hexadecimal digit may follow.
impl<I: Input, E: ParseError<I>> Writer<I> for HexU32<I, E>
where
    I::Item: AsChar + OfCode,
{
    ghost Form = { λ p v xs. (v < 2 ^ 32) × AreDigitsOf I.Item.of_code 16 v xs };

    ghost Fails = { λ p v. LacksDigits I.Item.of_code 16 v };

    ghost Follow = { λ p. BeginsOther (IsOf I.Item.code Class.HexDigit) };

    #[inline]
    fn write<S: Sink<I::Item>>(&self, value: &u32, out: &mut S) -> Result<(), WriteError> {
        write_digits::<I::Item, Sixteen, S>(*value as u128, out)
    }

    ghost reads = { λ p k c. hex_reads I.Item.code I.Item.of_code I.Item.coded I.model I.Item.IsValue I.values E.errors };

    ghost begins = { λ p. no_first };
}
