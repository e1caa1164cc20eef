//! Functions of the library as stream parsers of inputs that grow.
ghost use Rattle.nom_internal.specs.Prelude.{bytes_model};
ghost use Rattle.nom_calls.specs.Growing.{AreCuts};

use crate::functions::grown;
use nom::Grown;
use nom::character::streaming;
use nom::error::Error;
use nom::number::streaming as number;

type Fail<'a> = Error<&'a [u8]>;

/// The first digits of an input that grows.
pub fn grown_digits<'a>(input: &'a [u8], cuts: &[usize]) -> Grown<&'a [u8], &'a [u8], Fail<'a>>
    requires { AreCuts bytes_model input cuts.now }
{
    grown(streaming::digit1::<&[u8], Fail>, input, cuts)
}

/// The parts of a decimal fraction of an input that grows.
pub fn grown_parts<'a>(
    input: &'a [u8],
    cuts: &[usize],
) -> Grown<&'a [u8], (bool, &'a [u8], &'a [u8], i32), Fail<'a>>
    requires { AreCuts bytes_model input cuts.now }
{
    grown(number::recognize_float_parts::<&[u8], Fail>, input, cuts)
}
