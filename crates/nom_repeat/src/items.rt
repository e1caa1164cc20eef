//! The loop of all repetitions of one parser.
ghost use Rattle.std.specs.Prelude.{◌≡◌, if◌then◌else◌, IsTrue, false};
ghost use Rattle.nom_internal.specs.Prelude.{Built, modes, ShowsMeaning};
ghost use Rattle.nom_repeat.specs.Items.{items_meaning, item_errors, AreLimits, GivesFew, IsNever, IsOneMore, IsStuck};
ghost use Rattle.nom_repeat.specs.Accumulated.{Accumulated};
ghost use Rattle.nom_repeat.specs.Repeat.{IsBelow};

use crate::accumulator::{Accumulator, push_item};
use crate::ahead::items_ahead;
use nom_error::answer::{Err, PResult};
use nom_error::kind::ErrorKind;
use nom_error::mode::{Mode, OutputM, OutputMode};
use nom_error::value::{ParseError, refusal};
use nom_internal::choice::close_error;
use nom_internal::parser::Parser;
use nom_traits::input::{Input, Items};

/// The error for too few items.
#[derive(Clone, Copy)]
pub enum TooFew {
    /// There are never too few items.
    Never,
    /// The error of the item.
    Passed,
    /// The error of the item, to which a kind is added.
    Added(ErrorKind),
    /// A new error of a kind.
    Fresh(ErrorKind),
}

/// The number of items that are taken, and the errors that end them.
#[derive(Clone, Copy)]
pub struct Limits {
    /// The minimum number of items. If an item is refused earlier, the whole is refused.
    pub least: usize,
    /// The maximum number of items. After that many, no item is tried.
    pub most: Option<usize>,
    /// The error of the refusal of too few items.
    pub too_few: TooFew,
    /// Whether the place of that error is the start, and not the item.
    pub at_start: bool,
    /// The kind of the refusal at an item that consumes nothing. If it is `None`, such an item is accepted.
    pub empty: Option<ErrorKind>,
}

/// Parses items one after another within the limits, and adds them to `before`.
///
/// `EM` determines whether the errors of the items are built.
#[inline(always)]
pub fn items<OM: OutputMode, EM: Mode, I: Input, F: Parser<I>, K: Accumulator<F::Output> + Drop>(
    parser: &mut F,
    input: I,
    before: Option<K>,
    limits: Limits,
) -> PResult<I, K, F::Error>
    requires runs { (F.grammar (F.state parser.old)).meaning.Runs }
    requires built { Built OM.Output.BUILDS K.CanPush before }
    requires errors { EM.BUILDS ≡ item_errors limits.too_few OM.Error.BUILDS }
    requires limits { AreLimits limits }
    ensures shown { ShowsMeaning I.model (Accumulated K.Pushes K.CanPush (F.grammar (F.state parser.old)).IsOutput before)
        (items_meaning I.model F.Error.errors limits K.Grows (F.grammar (F.state parser.old)).meaning)
        (modes OM.Output.BUILDS OM.Error.BUILDS OM.Incomplete.STREAMING) input result }
    ensures kept { F.state parser.new ≡ F.state parser.old }
{
    input.known();
    let most = limits.most.unwrap_or(usize::MAX);
    let (mut rest, mut kept, mut count) = items_ahead::<OM, I, F, K>(parser, input, before, most);
    loop {
        if is_full(limits.most, count) {
            return Ok((rest, kept));
        }
        match parser.process::<OutputM<OM::Output, EM, OM::Incomplete>>(rest) {
            Ok((next, item)) => match stuck(limits.empty, rest.input_len(), next.input_len()) {
                Some(kind) => return Err(refusal::<OM::Error, I, F::Error>(rest, kind)),
                None => {
                    push_item::<OM::Output, _, _>(&mut kept, item)?;
                    rest = next;
                    count = one_more(limits.most, count);
                }
            },
            Err(Err::Error(error)) => {
                if count < limits.least {
                    let at = place(limits, input, rest);
                    return Err(few::<OM::Error, I, F::Error>(limits.too_few, at, error));
                }
                return Ok((rest, kept));
            }
            Err(Err::Failure(error)) => return Err(Err::Failure(error)),
            Err(Err::Incomplete(needed)) => return Err(Err::Incomplete(needed)),
            Err(Err::OutOfMemory) => return Err(Err::OutOfMemory),
        }
    }
}

/// Returns whether the maximum number of items is reached.
#[inline(always)]
fn is_full(most: Option<usize>, count: usize) -> bool
    ensures full { IsTrue result → IsBelow most count → ⊥ }
    ensures below { result ≡ false → IsBelow most count }
{
    match most {
        Some(most) => most <= count,
        None => false,
    }
}

/// Returns the kind of the refusal if an item consumed nothing, from the lengths before and after it.
#[inline(always)]
fn stuck(empty: Option<ErrorKind>, before: usize, after: usize) -> Option<ErrorKind>
    ensures { IsStuck empty before after result }
{
    match empty {
        Some(kind) => { if after == before { Some(kind) } else { None } }
        None => None,
    }
}

/// Returns the error for too few items at a place, from the error of the item.
#[inline(always)]
fn few<M: Mode, I: Drop, E: ParseError<I>>(
    too_few: TooFew,
    at: I,
    error: Option<E>,
) -> Err<E, Option<E>>
    requires { IsNever too_few → ⊥ }
    ensures { GivesFew E.errors too_few at M.BUILDS error result }
{
    match too_few {
        TooFew::Never => unreachable!(),
        TooFew::Passed => Err::Error(error),
        TooFew::Added(kind) => close_error(error, at, kind),
        TooFew::Fresh(kind) => refusal::<M, I, E>(at, kind),
    }
}

/// Returns the place of the error for too few items.
#[inline(always)]
fn place<I: Drop>(limits: Limits, input: I, rest: I) -> I
    ensures { result ≡ (if limits.at_start then input else rest) }
{
    if limits.at_start { input } else { rest }
}

/// Counts one more item if there is a maximum. Otherwise none is counted.
#[inline(always)]
fn one_more(most: Option<usize>, count: usize) -> usize
    requires { IsBelow most count }
    ensures { IsOneMore most count result }
{
    match most {
        Some(_) => count + 1,
        None => count,
    }
}
