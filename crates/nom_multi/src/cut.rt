//! The first items of an input, by their length.
ghost use Rattle.std.specs.Prelude.{MatchBool};
ghost use Rattle.nom_internal.specs.Prelude.{modes, IsBoundary, IsModelledBy, ShowsMeaning};
ghost use Rattle.nom_multi.specs.Values.{window_meaning};

use nom_error::answer::{Err, Needed, PResult};
use nom_error::kind::ErrorKind;
use nom_error::mode::OutputMode;
use nom_error::value::{ParseError, refusal};
use nom_internal::slices::front;
use nom_traits::input::{Input, Items};

/// Returns the first items, with a total length of `length`, and the rest after them.
///
/// If the input is shorter, more is needed, in both modes.
#[inline(always)]
pub(crate) fn cut<OM: OutputMode, I: Input, E: ParseError<I>>(
    input: I,
    length: usize,
) -> PResult<I, I, E>
    ensures { ShowsMeaning I.model (IsModelledBy I.model) (window_meaning I.model E.errors length)
        (modes OM.Output.BUILDS OM.Error.BUILDS OM.Incomplete.STREAMING) input result }
{
    let whole = input.input_len();
    if whole < length {
        return Err(Err::Incomplete(Needed::new(length - whole)));
    }
    if is_place(input, length) {
        return Ok((
            input.take_from(length),
            front::<OM::Output, I>(input, length),
        ));
    }
    Err(refusal::<OM::Error, I, E>(input, ErrorKind::LengthValue))
}

/// Returns whether a length is a place of an input.
#[inline(always)]
fn is_place<I: Input>(input: I, length: usize) -> bool
    ensures { MatchBool result (IsBoundary I.model input length) (IsBoundary I.model input length → ⊥) }
{
    match input.slice_index(length) {
        // As many items as the length, each of a length of 1, as bytes have.
        Ok(n) if n == length => true,
        Ok(_) => is_reached(input, length),
        Err(_) => is_reached(input, length),
    }
}

/// Returns whether a length is a place of an input, item by item.
fn is_reached<I: Input>(input: I, length: usize) -> bool
    ensures { MatchBool result (IsBoundary I.model input length) (IsBoundary I.model input length → ⊥) }
{
    let mut rest = input;
    let mut left = length;
    while left > 0 {
        let first = match rest.slice_index(1) {
            Ok(first) => first,
            Err(_) => return false,
        };
        if first > left {
            return false;
        }
        rest = rest.take_from(first);
        left -= first;
    }
    true
}
