//! Inputs that come item by item.
ghost use Rattle.std.specs.Prelude.{IfSome};
ghost use Rattle.nom_calls.specs.Growing.{AreCuts};

use crate::answers::Fault;
use nom::{AsBytes, Err, IResult, Input, StreamParser, parse_growing};
use std::alloc::Global;

/// All places of an input, the first first; none where memory runs out.
fn places_of<I: Input>(alloc: Global, input: I) -> Option<Vec<usize>>
    ensures { IfSome result (λ v. AreCuts I.model input v.items) }
{
    let mut places = Vec::new(alloc);
    for count in 0..usize::MAX {
        match input.slice_index(count) {
            Ok(place) => match places.push(place) {
                Ok(()) => {}
                Err(_) => return None,
            },
            Err(_) => return Some(places),
        }
    }
    Some(places)
}

/// Whether an answer on a beginning that lacks that much of the input is as the one on the whole: of one verdict, with
/// equal outputs and rests, and with errors alike and at one place.
fn is_alike<I: AsBytes, O: PartialEq, E: Fault>(
    whole: &IResult<I, O, E>,
    found: &IResult<I, O, E>,
    lack: usize,
) -> bool {
    match whole {
        Ok(wanted) => match found {
            Ok(accepted) => accepted.0.as_bytes() == wanted.0.as_bytes() && accepted.1 == wanted.1,
            Err(_) => false,
        },
        Err(Err::Incomplete(wanted)) => match found {
            Err(Err::Incomplete(needed)) => needed == wanted,
            _ => false,
        },
        Err(Err::Error(wanted)) => match found {
            Err(Err::Error(error)) => error.is_as(wanted, lack),
            _ => false,
        },
        Err(Err::Failure(wanted)) => match found {
            Err(Err::Failure(error)) => error.is_as(wanted, lack),
            _ => false,
        },
        Err(Err::OutOfMemory) => false,
    }
}

/// Whether a parser answers an input that comes item by item as it answers the whole.
pub fn grows<I, P>(
    alloc: Global,
    parser: P,
    input: I,
    whole: &IResult<I, P::Output, P::Error>,
) -> bool
where
    I: Input + AsBytes,
    P: StreamParser<I> + Drop,
    P::Output: PartialEq,
    P::Error: Fault,
    requires runs { (P.grammar (P.state parser)).meaning.Runs }
    requires sound { (P.grammar (P.state parser)).meaning.IsSound }
{
    let Some(places) = places_of(alloc, input) else {
        return false;
    };
    let grown = parse_growing(parser, input, &places);
    let length = input.input_len();
    let beginning = places.get(grown.index).copied().unwrap_or(length);
    is_alike(whole, &grown.result, length.saturating_sub(beginning))
}
