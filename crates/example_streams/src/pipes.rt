//! Frames: a length of two bytes, the highest first, and as many bytes.
ghost use Rattle.std.specs.Prelude.{◌≡◌};
ghost use Rattle.nom_number.specs.declared.order.Endianness.TheVariants.{Big};
ghost use Rattle.example_streams.specs.Pipes.{FramesOfPipe};

use nom::error::Error;
use nom::multi::{LengthCount, length_count};
use nom::number::{BeU8, be_u8, be_u16};
use nom_number::Binary;
use nom_number::layout::U16;
use nom_stream::stream::Stream;
use nom_write_stream::outgoing::Outgoing;
use nom_write_stream::promises::items_of_pipe;
use std::alloc::Allocator;
use std::io::{Read, Write};

/// A frame's parser, which also writes it.
pub type Frame<'a, A> = LengthCount<
    A,
    Binary<U16, &'a [u8], Error<&'a [u8]>>,
    BeU8<&'a [u8], Error<&'a [u8]>>,
>;

/// Returns the parser of a frame. `write_items` of an `Outgoing` writes frames by it.
pub fn frame<'a, A: Allocator + Copy>(alloc: A) -> Frame<'a, A>
    ensures { result.length.endian ≡ Big }
{
    length_count(alloc, be_u16(), be_u8())
}

/// What was written to a pipe are the frames that are read from it, in order.
///
/// It is true for every way in which the writer takes its bytes and the reader delivers them. The function does
/// nothing: its contract is the promise.
pub fn frames_of_pipe<R: Read, A: Allocator + Copy, W: Write, B: Allocator>(
    stream: &Stream<R, A>,
    outgoing: &Outgoing<W, B>,
    alloc: A,
)
    ensures { FramesOfPipe A B R.remaining W.contents }
{
    items_of_pipe(stream, outgoing, &frame(alloc));
}
