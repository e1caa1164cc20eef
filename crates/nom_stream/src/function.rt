//! Functions as the parsers of items.
ghost use Rattle.std.specs.Prelude.{◌≡◌};
ghost use Rattle.nom_internal.specs.Prelude.{bytes_model};
ghost use Rattle.nom_calls.specs.Func.{IsStreamParser, func_of};
ghost use Rattle.nom_stream.specs.Functions.{CutsRest};

use crate::item_parser::ItemParser;
use nom_error::answer::{Err, IResult};
use nom_error::kind::ErrorKind;
use nom_error::value::{Error, ParseError};
use nom_traits::input::Items;
use nom_traits::rests::CutRest;
use nom_traits::view::Viewed;
use std::marker::PhantomData;

/// The parser of items that `item_func` returns: a function.
#[derive(Drop)]
pub struct ItemFunc<F, O> {
    pub f: F,
    pub of: PhantomData<O>,
}

/// Returns a parser of items that calls the function `f`, as `stream_func` does.
///
/// The function parses by `parse`. It therefore needs more bytes if the present ones don't decide. It must
/// accept calls with any bytes; nothing else is required of it. The laws require what those of `stream_func`
/// do. The function doesn't know where the data ends: an item that it can't decide there is
/// `Stop::Incomplete`.
#[inline(always)]
pub fn item_func<O, F: Fn(&[u8]) -> IResult<&[u8], O>>(f: F) -> ItemFunc<F, O>
    ensures { result.f ≡ f }
{
    ItemFunc { f, of: PhantomData }
}

// What is answered for an acceptance that left some bytes: the rest is cut anew.
#[inline(always)]
fn cut<'a, O: Drop>(input: &'a [u8], left: &'a [u8], value: O) -> IResult<&'a [u8], O>
    ensures { CutsRest input.entry left.entry value result }
{
    match input.cut_rest(left) {
        Some(rest) => Ok((rest, value)),
        None => Err(Err::Failure(Error {
            input,
            code: ErrorKind::Fail,
        })),
    }
}

impl<O: Viewed + Drop, F: Fn(&[u8]) -> IResult<&[u8], O>> ItemParser for ItemFunc<F, O> {
    type Item = O;

    ghost State = { F };

    ghost state = { λ p. p.f };

    ghost Tree = { O.view.Value };

    ghost grammar = { λ f. func_of bytes_model O.view ⟦<Error<&'static [u8]> as ParseError<&'static [u8]>>⟧.errors (F.post f) (F.pre f)
        (IsStreamParser bytes_model O.view (F.post f)) };

    fn item<'a>(&mut self, input: &'a [u8], _more: bool) -> IResult<&'a [u8], O> {
        input.known();
        match (self.f)(input) {
            Ok((left, value)) => cut(input, left, value),
            Err(stop) => Err(stop),
        }
    }
}
