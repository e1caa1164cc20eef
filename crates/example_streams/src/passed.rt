//! Frames that are passed on as they come: to a handler, and to another pipe. Nothing is written for the proof.

use crate::frames::frame;
use nom::error::Error;
use nom::multi::length_data;
use nom::number::be_u16;
use nom_stream::function::item_func;
use nom_stream::settings::Settings;
use nom_stream::stream::{Stop, Stream};
use nom_write_stream::outgoing::{Outgoing, Unwritten};
use std::alloc::Allocator;
use std::io;
use std::io::{Read, Write};

const MOST: usize = 65537;

const SETTINGS: Settings = Settings {
    read: 4096,
    most: MOST,
    patient: false,
    complete: false,
};

/// Calls `handle` with the data of each frame of a reader, of at most that many frames, and returns how many there were.
pub fn handle_frames<R: Read + Drop, A: Allocator + Copy, H: FnMut(&[u8]) + Drop>(
    alloc: A,
    source: R,
    most: usize,
    mut handle: H,
) -> Result<usize, Stop>
    requires pre { (f : _) (bytes : _) → H.pre f bytes }
{
    let mut stream = Stream::new(alloc, source, SETTINGS);
    for turn in 0..most {
        match stream.next_item(&mut item_func(frame)) {
            Ok(Some((used, len))) => handle(data(stream.last(used), len)),
            Ok(None) => return Ok(turn),
            Err(stop) => return Err(stop),
        }
    }
    Ok(most)
}

// The data of a frame: its last bytes.
fn data(frame: &[u8], len: usize) -> &[u8] {
    &frame[frame.len().saturating_sub(len)..]
}

/// Why not all frames of a pipe went to another.
#[derive(Clone, Copy, Debug)]
pub enum Halt {
    /// A frame couldn't be read.
    Unread(Stop),
    /// A frame couldn't be written.
    Unwritten(Unwritten),
    /// The last bytes couldn't be written.
    Fault(io::Error),
    /// Memory ran out before the first.
    OutOfMemory,
}

/// Writes the frames of a reader to a writer, at most that many, and returns how many there were.
pub fn copy_frames<R: Read + Drop, W: Write + Drop, A: Allocator + Copy>(
    alloc: A,
    source: R,
    target: W,
    most: usize,
) -> Result<usize, Halt> {
    let mut stream = Stream::new(alloc, source, SETTINGS);
    let mut outgoing = match Outgoing::new(alloc, target, MOST) {
        Ok(outgoing) => outgoing,
        Err(_) => return Err(Halt::OutOfMemory),
    };
    let mut count = 0usize;
    for _turn in 0..most {
        let (used, len) = match stream.next_item(&mut item_func(frame)) {
            Ok(Some(item)) => item,
            Ok(None) => break,
            Err(stop) => return Err(Halt::Unread(stop)),
        };
        let bytes = data(stream.last(used), len);
        match outgoing.write_item(&length_data(be_u16::<&[u8], Error<&[u8]>>()), &bytes) {
            Ok(()) => count = count.saturating_add(1),
            Err(why) => return Err(Halt::Unwritten(why)),
        }
    }
    match outgoing.flush() {
        Ok(()) => Ok(count),
        Err(error) => Err(Halt::Fault(error)),
    }
}
