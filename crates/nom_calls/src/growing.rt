//! Inputs that grow.
ghost use Rattle.std.specs.Prelude.{ℕ, MatchBool};
ghost use Rattle.nom_internal.specs.Prelude.{IsSuffixOf, IsPrefixOf, AsksForMore, HasRests, WithRest};
ghost use Rattle.nom_internal.specs.Promises.{HasNoFailure};
ghost use Rattle.nom_calls.specs.Growing.{AreCuts, IsGrown, AgreesWithWhole};

use nom_error::answer::{Err, IResult};
use nom_internal::parser::StreamParser;
use nom_traits::input::Input;

/// The answer of a parser on an input that grows, and the cut at which it was decided.
#[derive(Drop)]
pub struct Grown<I, O, E> {
    /// The index of the cut whose beginning was decided. The number of cuts represents the whole input.
    pub index: usize,
    /// The answer at that cut. An acceptance has the rest of the whole input.
    pub result: IResult<I, O, E>,
}

/// Returns whether an answer needs more input.
#[inline(always)]
fn waits<I, O, E>(answer: &IResult<I, O, E>) -> bool
    ensures { MatchBool result (AsksForMore answer.now) (AsksForMore answer.now → ⊥) }
{
    match answer {
        Err(Err::Incomplete(_)) => true,
        _ => false,
    }
}

/// Returns the answer on a beginning, with the rest of the whole.
#[inline(always)]
fn in_whole<I: Input, O: Drop, E: Drop>(
    beginning: I,
    whole: I,
    answer: IResult<I, O, E>,
) -> IResult<I, O, E>
    requires begins { (cut : ℕ) × IsPrefixOf I.model whole cut beginning }
    requires rests { HasRests (λ j. (n : ℕ) × IsSuffixOf I.model beginning n j) answer }
    ensures { WithRest (IsSuffixOf I.model beginning) (IsSuffixOf I.model whole) answer result }
{
    let (rest, output) = answer?;
    let n = beginning.input_len() - rest.input_len();
    Ok((whole.take_from(n), output))
}

/// Parses the beginnings of `whole` at `cuts` in turn, until an answer doesn't need more input.
///
/// If every beginning needs more, it parses the whole. The cuts are places of `whole`. There may be no cuts.
pub fn parse_growing<I: Input, P: StreamParser<I> + Drop>(
    mut parser: P,
    whole: I,
    cuts: &[usize],
) -> Grown<I, P::Output, P::Error>
    requires runs { (P.grammar (P.state parser)).meaning.Runs }
    requires sound { (P.grammar (P.state parser)).meaning.IsSound }
    requires cuts { AreCuts I.model whole cuts.now }
    ensures grown { IsGrown I.model (P.grammar (P.state parser)).IsOutput (P.grammar (P.state parser)).meaning whole cuts.now result.index result.result }
    // Where the parser pins, one parse of the whole answers the same.
    ensures whole { AgreesWithWhole I.model P.Output.view (P.Pins parser) (P.grammar (P.state parser)).IsOutput
        (P.grammar (P.state parser)).meaning whole cuts.now result.index result.result }
    // Where it never fails, it has no such outcome.
    ensures failures { HasNoFailure I.model (P.grammar (P.state parser)).meaning }
{
    whole.known();
    for (index, cut) in cuts.iter().enumerate() {
        let beginning = whole.take(*cut);
        let answer = parser.parse(beginning);
        if !waits(&answer) {
            let result = in_whole(beginning, whole, answer);
            return Grown { index, result };
        }
    }
    let result = parser.parse(whole);
    Grown {
        index: cuts.len(),
        result,
    }
}
