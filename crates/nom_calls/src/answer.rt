//! The answers of parsers, with contracts that make a function of them a parser again.
ghost use Rattle.std.specs.Prelude.{◌≡◌, true, false};
ghost use Rattle.nom_internal.specs.Prelude.{modes, NeverTooLarge, rest_of};
ghost use Rattle.nom_calls.specs.Func.{AnswersBy, StreamsBy};

use nom_error::answer::IResult;
use nom_internal::parser::{Parser, StreamParser};
use nom_traits::input::Items;

/// Runs a parser on a complete input, like `parse_complete`.
///
/// A function that ensures this answer is sound in `func`.
#[inline(always)]
pub fn answer<I: Items, P: StreamParser<I>>(
    parser: &mut P,
    input: I,
) -> IResult<I, P::Output, P::Error>
    requires runs { (P.grammar (P.state parser.old)).meaning.Runs }
    requires sound { (P.grammar (P.state parser.old)).meaning.IsSound }
    requires pins { P.Pins parser.old }
    ensures answer { AnswersBy I.model P.Output.view (P.grammar (P.state parser.old)).IsOutput (P.grammar (P.state parser.old)).meaning false input result }
    ensures kept { P.state parser.new ≡ P.state parser.old }
    ensures side_condition { P.SideCondition (modes true true false) parser.old parser.new input (rest_of result) }
{
    parser.parse_complete(input)
}

/// Runs a parser on an input of which more may come, like `parse`.
///
/// A function that ensures this answer is sound in `stream_func`, and in `func`.
#[inline(always)]
pub fn stream_answer<I: Items, P: StreamParser<I>>(
    parser: &mut P,
    input: I,
) -> IResult<I, P::Output, P::Error>
    requires runs { (P.grammar (P.state parser.old)).meaning.Runs }
    requires sound { (P.grammar (P.state parser.old)).meaning.IsSound }
    requires pins { P.Pins parser.old }
    requires never_too_large { NeverTooLarge (P.grammar (P.state parser.old)).meaning }
    ensures answer { StreamsBy I.model P.Output.view (P.grammar (P.state parser.old)).IsOutput (P.grammar (P.state parser.old)).meaning true input result }
    ensures kept { P.state parser.new ≡ P.state parser.old }
    ensures side_condition { P.SideCondition (modes true true true) parser.old parser.new input (rest_of result) }
{
    parser.parse(input)
}
