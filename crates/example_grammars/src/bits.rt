//! A bit field, and the place that it leaves.
ghost use Rattle.nom_internal.specs.Prelude.{bytes_model, OfRest, rest_of};
ghost use Rattle.nom_bits.specs.BitRests.{StandsAfter};

use nom::bits::complete::take;
use nom::{IResult, Parser};

/// Twelve bits. They leave the very pair of bytes and position that stands after them.
pub fn twelve_bits(input: (&[u8], usize)) -> IResult<(&[u8], usize), u16>
    ensures { OfRest (StandsAfter bytes_model input.entry 12) (rest_of result) }
{
    let mut field = take(12u8);
    field.parse(input)
}
