//! Frames of a kind, which is a byte. A byte of no kind is refused. A kind is read back, because two functions have contracts about
//! one definition, and nothing else is written for the proof. One function makes the parser that reads and writes a frame.
ghost use Rattle.std.specs.Prelude.{◌≡◌, IfSome, Ok};
ghost use Rattle.example_streams.specs.Kinds.{kind_by};

use nom::error::Error;
use nom::multi::{LengthData, length_data};
use nom::number::{BeU8, be_u8};
use nom::{IResult, Parser, Viewed};
use nom_write::promises::reads_back;
use nom_write::{MapResBoth, Sink, WriteError, Writer, map_res_both};

/// What a frame is for.
#[derive(Clone, Copy, Debug, PartialEq, Eq)]
pub enum Kind {
    /// It carries data.
    Data,
    /// It answers one that carried data.
    Answer,
    /// It is the last.
    Last,
}

impl Viewed for Kind {}

/// Returns the kind of a byte. A byte of no kind is the error.
fn kind_of(byte: u8) -> Result<Kind, u8>
    ensures { result ≡ kind_by byte }
{
    match byte {
        0 => Ok(Kind::Data),
        1 => Ok(Kind::Answer),
        8 => Ok(Kind::Last),
        _ => Err(byte),
    }
}

fn byte_of(kind: &Kind) -> Option<u8>
    ensures { IfSome result (λ byte. kind_by byte ≡ Ok kind.now) }
{
    match kind {
        Kind::Data => Some(0),
        Kind::Answer => Some(1),
        Kind::Last => Some(8),
    }
}

/// A kind, and data.
pub type Frame<'a> = (Kind, &'a [u8]);

type Byte<'a> = BeU8<&'a [u8], Error<&'a [u8]>>;

/// Returns the parser of a frame: a byte, by the functions between it and its kind, and data after a length of one byte.
fn frames<'a, ToKind, ToByte>(
    to: ToKind,
    from: ToByte,
) -> (MapResBoth<Byte<'a>, ToKind, ToByte>, LengthData<Byte<'a>>)
    ensures to { result.0.map.map ≡ to }
    ensures from { result.0.back ≡ from }
{
    (map_res_both(be_u8(), to, from), length_data(be_u8()))
}

/// Writes a frame.
pub fn write_frame<S: Sink<u8>>(frame: &Frame<'_>, out: &mut S) -> Result<(), WriteError> {
    frames(kind_of, byte_of).write(frame, out)
}

/// Reads a frame. Each that was written is read back: what the call of `reads_back` requires is proved here.
pub fn read_frame(bytes: &[u8]) -> IResult<&[u8], Frame<'_>> {
    let mut frames = frames(kind_of, byte_of);
    reads_back(&frames);
    frames.parse(bytes)
}
