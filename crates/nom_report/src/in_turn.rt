//! Parsing in which accepted input builds only small errors.
ghost use Rattle.std.specs.Prelude.{◌≡◌, true, false};
ghost use Rattle.nom_report.specs.InTurn.{IsTaken, ParsesInTurn};

use nom_error::answer::{Err, IResult};
use nom_internal::parser::Parser;
use nom_traits::input::Items;

/// Returns the answer if nothing is tried after it: an acceptance, or want of memory.
#[inline(always)]
fn taken<I: Drop, O: Drop, E: Drop, F: Drop>(answer: IResult<I, O, E>) -> Option<IResult<I, O, F>>
    ensures { IsTaken answer result }
{
    match answer {
        Ok(accepted) => Some(Ok(accepted)),
        Err(Err::Incomplete(_)) => None,
        Err(Err::Error(_)) => None,
        Err(Err::Failure(_)) => None,
        Err(Err::OutOfMemory) => Some(Err(Err::OutOfMemory)),
    }
}

/// Returns what `quick` accepts by `parse_complete`, and else the answer of `full`.
///
/// Both are one grammar, which is generic over its error type: `quick` has a small one, such as `Error`, and
/// `full` has `Report`. So accepted input costs what the small errors cost, also under `func`, and refused input
/// is parsed a second time for its report. If memory runs out for `quick`, `full` isn't tried.
///
/// `parse_complete_in_turn(&mut func(record::<Error<&[u8]>>), &mut func(record::<Report<&[u8]>>), input)`
#[inline(always)]
pub fn parse_complete_in_turn<I: Items, P: Parser<I>, Q: Parser<I, Output = P::Output>>(
    quick: &mut P,
    full: &mut Q,
    input: I,
) -> IResult<I, P::Output, Q::Error>
    requires quick { (P.grammar (P.state quick.old)).meaning.Runs }
    requires full { (Q.grammar (Q.state full.old)).meaning.Runs }
    ensures shown { ParsesInTurn I.model (P.grammar (P.state quick.old)) (Q.grammar (Q.state full.old)) false input result }
    ensures quick { P.state quick.new ≡ P.state quick.old }
    ensures full { Q.state full.new ≡ Q.state full.old }
{
    match taken(quick.parse_complete(input)) {
        Some(answer) => answer,
        None => full.parse_complete(input),
    }
}

/// Answers like `parse_complete_in_turn`, but by `parse`: more input may come.
#[inline(always)]
pub fn parse_in_turn<I: Items, P: Parser<I>, Q: Parser<I, Output = P::Output>>(
    quick: &mut P,
    full: &mut Q,
    input: I,
) -> IResult<I, P::Output, Q::Error>
    requires quick { (P.grammar (P.state quick.old)).meaning.Runs }
    requires full { (Q.grammar (Q.state full.old)).meaning.Runs }
    ensures shown { ParsesInTurn I.model (P.grammar (P.state quick.old)) (Q.grammar (Q.state full.old)) true input result }
    ensures quick { P.state quick.new ≡ P.state quick.old }
    ensures full { Q.state full.new ≡ Q.state full.old }
{
    match taken(quick.parse(input)) {
        Some(answer) => answer,
        None => full.parse(input),
    }
}
