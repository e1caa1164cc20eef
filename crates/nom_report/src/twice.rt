//! Parsing in which accepted input builds no errors.
ghost use Rattle.std.specs.Prelude.{◌≡◌, MatchOption, true, false};
ghost use Rattle.nom_internal.specs.Prelude.{Parses, Refuse, modes, rest_of};
ghost use Rattle.nom_internal.specs.Word.{Answers};
ghost use Rattle.nom_report.specs.Twice.{OwesTwice, rest_answered, parsed_twice, twice_of};

use nom_error::answer::{Err, IResult};
use nom_error::mode::{Check, Complete, Emit, IsStreaming, OutputM, Streaming};
use nom_internal::parser::Parser;
use nom_traits::input::Items;

/// Returns the answer of a parser that builds no errors of refusals, or `None` if it refuses.
#[inline(always)]
fn without_errors<I: Items, P: Parser<I>, S: IsStreaming>(
    parser: &mut P,
    input: I,
) -> Option<IResult<I, P::Output, P::Error>>
    requires { (P.grammar (P.state parser.old)).meaning.Runs }
    ensures shown { MatchOption result ((P.grammar (P.state parser.old)).meaning.answers S.STREAMING input Refuse)
        (Parses I.model (parsed_twice (P.grammar (P.state parser.old))) S.STREAMING input) }
    ensures kept { P.state parser.new ≡ P.state parser.old }
    ensures side_condition { P.SideCondition (modes true false S.STREAMING) parser.old parser.new input (rest_answered result) }
{
    match parser.process::<OutputM<Emit, Check, S>>(input) {
        Ok(accepted) => {
            let (rest, output) = accepted;
            match output {
                Some(output) => Some(Ok((rest, output))),
                None => unreachable!(),
            }
        }
        Err(Err::Incomplete(needed)) => Some(Err(Err::Incomplete(needed))),
        Err(Err::Failure(error)) => Some(Err(Err::Failure(error))),
        Err(Err::Error(_)) => None,
        Err(Err::OutOfMemory) => Some(Err(Err::OutOfMemory)),
    }
}

/// Answers like `parse_complete`, and builds no errors of refusals for accepted input.
///
/// The input is first parsed without errors. If it is refused, it is parsed again to build the error. Refused input
/// costs twice as much. With a large error type accepted input may cost more than by `parse_complete`, since each
/// answer has room for an error. `parse_complete_in_turn` costs less.
///
/// If memory runs out in either parse, the answer is `OutOfMemory`, and nothing is tried again.
///
/// A function that is wrapped by `func` builds its errors whenever it refuses.
#[inline(always)]
pub fn parse_complete_twice<I: Items, P: Parser<I>>(
    parser: &mut P,
    input: I,
) -> IResult<I, P::Output, P::Error>
    requires { (P.grammar (P.state parser.old)).meaning.Runs }
    ensures written { Answers I.model (twice_of (P.word (P.state parser.old))) false input result }
    ensures shown { Parses I.model (parsed_twice (P.grammar (P.state parser.old))) false input result }
    ensures kept { P.state parser.new ≡ P.state parser.old }
    ensures side_condition { OwesTwice P.SideCondition P.state ((P.grammar (P.state parser.old)).meaning.answers false input Refuse)
        false parser.old parser.new input (rest_of result) }
{
    match without_errors::<I, P, Complete>(parser, input) {
        Some(answer) => answer,
        None => parser.parse_complete(input),
    }
}

/// Answers like `parse`, at the costs of `parse_complete_twice`.
#[inline(always)]
pub fn parse_twice<I: Items, P: Parser<I>>(
    parser: &mut P,
    input: I,
) -> IResult<I, P::Output, P::Error>
    requires { (P.grammar (P.state parser.old)).meaning.Runs }
    ensures written { Answers I.model (twice_of (P.word (P.state parser.old))) true input result }
    ensures shown { Parses I.model (parsed_twice (P.grammar (P.state parser.old))) true input result }
    ensures kept { P.state parser.new ≡ P.state parser.old }
    ensures side_condition { OwesTwice P.SideCondition P.state ((P.grammar (P.state parser.old)).meaning.answers true input Refuse)
        true parser.old parser.new input (rest_of result) }
{
    match without_errors::<I, P, Streaming>(parser, input) {
        Some(answer) => answer,
        None => parser.parse(input),
    }
}
