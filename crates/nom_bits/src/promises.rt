//! Promises of consecutive bit fields.
ghost use Rattle.std.specs.Prelude.{◌≡◌};
ghost use Rattle.nom_internal.specs.Prelude.{OfRest, rest_of};
ghost use Rattle.nom_bits.specs.BitRests.{StandsAfter};

use crate::take;
use nom_error::answer::IResult;
use nom_error::value::ParseError;
use nom_internal::parser::Parser;
use nom_traits::input::Input;

/// Parses four bits and then eight, as a tuple. The remaining pair is the one after twelve bits.
pub fn four_then_eight<I: Input<Item = u8>, E: ParseError<(I, usize)>>(
    input: (I, usize),
) -> IResult<(I, usize), (u8, u8), E>
    ensures { OfRest (StandsAfter I.model input 12) (rest_of result) }
{
    let mut fields = (take::<I, u8, usize, E>(4), take::<I, u8, usize, E>(8));
    fields.parse(input)
}
