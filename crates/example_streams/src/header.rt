//! A header of six fields of fixed shape. One function makes the parser that reads and writes it, and its contract has the mark and
//! the byte orders. Nothing is written for its proof.
ghost use Rattle.std.specs.Prelude.{◌≡◌, ◌∷◌, []};
ghost use Rattle.nom_number.specs.declared.order.Endianness.TheVariants.{Big, Little};

use nom::bytes::{Tag, tag};
use nom::error::Error;
use nom::multi::{LengthData, length_data};
use nom::number::layout::{U16, U32, U64};
use nom::number::{BeU8, Binary, be_u8, be_u16, be_u32, be_u64, le_u16};
use nom::sequence::{Preceded, preceded};
use nom::{IResult, Parser};
use nom_write::{Sink, WriteError, Writer};

/// A version, a length, a number, flags, a name and a time.
pub type Header<'a> = (u8, u16, u32, u16, &'a [u8], u64);

type Byte<'a> = BeU8<&'a [u8], Error<&'a [u8]>>;

type Number<'a, Layout> = Binary<Layout, &'a [u8], Error<&'a [u8]>>;

/// The parser of a header.
pub type Fields<'a> = (
    Preceded<Tag<&'a [u8], &'a [u8], Error<&'a [u8]>>, Byte<'a>>,
    Number<'a, U16>,
    Number<'a, U32>,
    Number<'a, U16>,
    LengthData<Byte<'a>>,
    Number<'a, U64>,
);

/// Returns the parser of a header: an `H`, and the fields. The flags have their lowest byte first, and the other numbers their
/// highest. The name comes after its length, of one byte.
pub fn fields<'a>() -> Fields<'a>
    ensures mark { result.0.first.tag.now ≡ 72 ∷ [] }
    ensures length { result.1.endian ≡ Big }
    ensures number { result.2.endian ≡ Big }
    ensures flags { result.3.endian ≡ Little }
    ensures time { result.5.endian ≡ Big }
{
    let version = preceded(tag(&b"H"[..]), be_u8());
    (
        version,
        be_u16(),
        be_u32(),
        le_u16(),
        length_data(be_u8()),
        be_u64(),
    )
}

/// Writes a header.
pub fn write_header<S: Sink<u8>>(header: &Header<'_>, out: &mut S) -> Result<(), WriteError> {
    fields().write(header, out)
}

/// Reads a header.
pub fn read_header(bytes: &[u8]) -> IResult<&[u8], Header<'_>> {
    fields().parse(bytes)
}
