//! Integers in decimal digits.
ghost use Rattle.nom_character_integer.specs.laws.IntegerLaws.{integer_lawful, range_of};
ghost use Rattle.nom_write.specs.Decimals.{DecimalFails, IsDecimal, IsDigit};
ghost use Rattle.nom_write.specs.Runs.{BeginsOther};
ghost use Rattle.nom_write.specs.laws.DecimalReads.{decimal_reads};
ghost use Rattle.nom_write.specs.laws.FirstSetLaws.{no_first};

use crate::writer::Writer;
use nom_character_integer::Integer;
use nom_error::value::ParseError;
pub use nom_sink::decimal::Decimal;
use nom_sink::decimal::Signed;
use nom_sink::error::WriteError;
use nom_sink::piece::Piece;
use nom_sink::radix::OfCode;
use nom_sink::sink::Sink;
use nom_traits::character::AsChar;
use nom_traits::input::Input;

/// Writes the digits of a number, without leading zeros, after a minus if it is negative.
///
/// If the parser allows no sign, a negative number is a mismatch. No digit may follow.
impl<I: Input, T: Decimal, E: ParseError<I>> Writer<I> for Integer<T, I, E>
where
    I::Item: AsChar + OfCode,
{
    ghost use Rattle.nom_sink.specs.declared.error.WriteError.{WriteError};

    ghost Form = { λ p. IsDecimal I.Item.of_code p.signed T.value T.fits };

    ghost Fails = { λ p. DecimalFails I.Item.of_code p.signed T.value };

    ghost Follow = { λ p. BeginsOther (IsDigit I.Item.code) };

    #[inline]
    fn write<S: Sink<I::Item>>(&self, value: &T, out: &mut S) -> Result<(), WriteError> {
        let (negative, number) = value.magnitude();
        if negative && !self.signed {
            return Err(WriteError::Mismatch(out.len()));
        }
        Signed(negative, number).put(out)
    }

    ghost reads = { λ p k c. decimal_reads I.Item.code I.Item.of_code I.Item.coded I.model p.signed T.value T.fits E.errors
        (integer_lawful I.model I.Item.code p.signed T.fits (range_of T.fits T.exact T.exact_law T.small_fits_law T.between_law) E.errors) };

    ghost begins = { λ p. no_first };
}
