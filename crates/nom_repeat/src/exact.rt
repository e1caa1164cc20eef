//! The loop that parses exactly n items.
ghost use Rattle.std.specs.Prelude.{◌≡◌};
ghost use Rattle.nom_internal.specs.Prelude.{Built, modes, ShowsMeaning};
ghost use Rattle.nom_repeat.specs.Bounds.{exact_limits};
ghost use Rattle.nom_repeat.specs.Items.{items_meaning};
ghost use Rattle.nom_repeat.specs.Accumulated.{Accumulated};
ghost use Rattle.nom_repeat.specs.Lists.{ListPushes};

use crate::accumulator::push_claimed;
use crate::ahead::items_ahead;
use nom_error::answer::{Err, PResult};
use nom_error::kind::ErrorKind;
use nom_error::mode::{Mode, OutputM, OutputMode};
use nom_error::value::ParseError;
use nom_internal::choice::close_error;
use nom_internal::parser::Parser;
use nom_traits::input::Items;
use std::alloc::Allocator;

/// Parses exactly `count` items, one after another, and adds them to the list `before`. Each item may have any length.
///
/// If an item is refused, the whole is refused with the item's error, to which `Count` is added at the start.
#[inline(always)]
pub fn items_exactly<OM: OutputMode, I: Items, F: Parser<I>, A: Allocator>(
    parser: &mut F,
    input: I,
    before: Option<Vec<F::Output, A>>,
    count: usize,
) -> PResult<I, Vec<F::Output, A>, F::Error>
    requires runs { (F.grammar (F.state parser.old)).meaning.Runs }
    requires built { Built OM.Output.BUILDS (λ _. Unit {0}) before }
    ensures shown { ShowsMeaning I.model (Accumulated ListPushes (λ _. Unit {0}) (F.grammar (F.state parser.old)).IsOutput before)
        (items_meaning I.model F.Error.errors (exact_limits count) (Unit {0}) (F.grammar (F.state parser.old)).meaning)
        (modes OM.Output.BUILDS OM.Error.BUILDS OM.Incomplete.STREAMING) input result }
    ensures kept { F.state parser.new ≡ F.state parser.old }
{
    input.known();
    let (mut rest, mut kept, mut done) = items_ahead::<OM, I, F, Vec<F::Output, A>>(
        parser, input, before, count,
    );
    while done < count {
        match parser.process::<OutputM<OM::Output, OM::Error, OM::Incomplete>>(rest) {
            Ok((next, item)) => {
                push_claimed::<OM::Output, _, _>(&mut kept, item, count)?;
                rest = next;
                done += 1;
            }
            Err(Err::Error(error)) => return Err(close_error(error, input, ErrorKind::Count)),
            Err(Err::Failure(error)) => return Err(Err::Failure(error)),
            Err(Err::Incomplete(needed)) => return Err(Err::Incomplete(needed)),
            Err(Err::OutOfMemory) => return Err(Err::OutOfMemory),
        }
    }
    Ok((rest, kept))
}
