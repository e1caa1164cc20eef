//! Answers, and what a row says of them.

use crate::grown::grows;
use nom::error::{Error, ErrorKind, ParseError, error_to_u32};
use nom::{
    AsBytes, CutRest, Err, IResult, Input, Needed, Parser, StreamFunc, StreamParser, Viewed,
    stream_func,
};
use std::alloc::Global;

/// What a parser answers of an input.
#[derive(Drop)]
pub struct Answers<I, O, E = Error<I>> {
    /// Where more may come.
    pub streaming: IResult<I, O, E>,
    /// Where no more may.
    pub complete: IResult<I, O, E>,
    /// Whether the input, where it comes item by item, is answered as where more may come.
    pub grows: bool,
}

/// An error that tells how much of the input is left at its place.
pub trait Fault {
    /// Whether it is of the same kind as another, and at the same place of an input of which that much more is there.
    fn is_as(&self, other: &Self, lack: usize) -> bool;
}

impl<I: AsBytes> Fault for Error<I> {
    fn is_as(&self, other: &Error<I>, lack: usize) -> bool {
        let left = self.input.as_bytes().len().saturating_add(lack);
        self.code == other.code && left == other.input.as_bytes().len()
    }
}

/// What a parser answers. A row names its parser by this one call, so that the type is looked through once.
pub fn answers_of<I, P>(alloc: Global, mut parser: P, input: I) -> Answers<I, P::Output, P::Error>
where
    I: Input + AsBytes,
    P: StreamParser<I> + Drop,
    P::Output: PartialEq,
    P::Error: Fault,
    requires runs { (P.grammar (P.state parser)).meaning.Runs }
    requires sound { (P.grammar (P.state parser)).meaning.IsSound }
{
    let streaming = parser.parse(input);
    let complete = parser.parse_complete(input);
    let grows = grows(alloc, parser, input, &streaming);
    Answers {
        streaming,
        complete,
        grows,
    }
}

/// What a function answers as a stream parser.
pub fn of_function<I, O, E, F>(alloc: Global, f: F, input: I) -> Answers<I, O, E>
where
    I: Input + AsBytes + CutRest,
    O: Viewed + PartialEq + Drop,
    E: ParseError<I> + Fault,
    F: Fn(I) -> IResult<I, O, E> + Drop,
    requires runs { (⟦<StreamFunc<F, I, O, E> as Parser<I>>⟧.grammar f).meaning.Runs }
    requires sound { (⟦<StreamFunc<F, I, O, E> as Parser<I>>⟧.grammar f).meaning.IsSound }
{
    answers_of(alloc, stream_func(f), input)
}

/// Whether a slice of the input was accepted, with this rest.
pub fn accepts<I: AsBytes + Drop>(answer: IResult<I, I>, rest: &[u8], output: &[u8]) -> bool {
    match answer {
        Ok((left, found)) => left.as_bytes() == rest && found.as_bytes() == output,
        Err(_) => false,
    }
}

/// Whether it is an Error of this kind at this rest of the input.
pub fn refuses<I: AsBytes + Drop, O: Drop>(
    answer: IResult<I, O>,
    kind: ErrorKind,
    place: &[u8],
) -> bool {
    match answer {
        Ok(_) => false,
        Err(Err::Incomplete(_)) => false,
        Err(Err::Error(error)) => error_to_u32(&error.code) == error_to_u32(&kind)
            && error.input.as_bytes() == place,
        Err(Err::Failure(_)) => false,
        Err(Err::OutOfMemory) => false,
    }
}

/// Whether it is a Failure of this kind at this rest of the input.
pub fn fails<I: AsBytes + Drop, O: Drop>(
    answer: IResult<I, O>,
    kind: ErrorKind,
    place: &[u8],
) -> bool {
    match answer {
        Ok(_) => false,
        Err(Err::Incomplete(_)) => false,
        Err(Err::Error(_)) => false,
        Err(Err::Failure(error)) => error_to_u32(&error.code) == error_to_u32(&kind)
            && error.input.as_bytes() == place,
        Err(Err::OutOfMemory) => false,
    }
}

/// Whether a size is needed; none where it isn't known.
fn is_size(needed: Needed, size: Option<usize>) -> bool {
    match needed {
        Needed::Unknown => size.is_none(),
        Needed::Size(found) => match size {
            Some(size) => found.get() == size,
            None => false,
        },
    }
}

/// Whether more is needed, by this size; none where it isn't known.
pub fn needs<I: Drop, O: Drop>(answer: IResult<I, O>, size: Option<usize>) -> bool {
    match answer {
        Ok(_) => false,
        Err(Err::Incomplete(needed)) => is_size(needed, size),
        Err(Err::Error(_)) => false,
        Err(Err::Failure(_)) => false,
        Err(Err::OutOfMemory) => false,
    }
}
