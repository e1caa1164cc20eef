//! A recursive function of a user's own, which `func` makes a parser. A function can't hand itself to `func`,
//! so it calls itself, and its other parts by `parse_complete`.
ghost use Rattle.std.specs.Prelude.{◌≡◌, false};
ghost use Rattle.nom_internal.specs.Prelude.{bytes_model, ParsesMeaning};
ghost use Rattle.example_grammars.specs.Brackets.{brackets_meaning};

use nom::bytes::tag;
use nom::character::char;
use nom::error::Error;
use nom::promises::has_one_outcome;
use nom::sequence::terminated;
use nom::{IResult, Items, Parser, func};

/// Nested round brackets, as `(())`, with how deep they are nested; what follows them is left. An input that
/// opens none has none, and where a bracket that was opened isn't closed, the input is refused there.
pub fn nested_brackets(input: &[u8]) -> IResult<&[u8], usize>
    ensures { ParsesMeaning bytes_model (λ t n. n ≡ t) brackets_meaning false input.entry result }
{
    input.known();
    let mut open = char::<&[u8], Error<&[u8]>>('(');
    match open.parse_complete(input) {
        Ok(accepted) => {
            let (inside, _) = accepted;
            let (after, depth) = nested_brackets(inside)?;
            let mut close = char::<&[u8], Error<&[u8]>>(')');
            let (rest, _) = close.parse_complete(after)?;
            Ok((rest, depth + 1))
        }
        Err(_) => Ok((input, 0)),
    }
}

/// What a parser answers of which each input has one outcome.
fn answer_once<I: Items, P: Parser<I> + Drop>(
    mut parser: P,
    input: I,
) -> IResult<I, P::Output, P::Error>
    requires runs { (P.grammar (P.state parser)).meaning.Runs }
    requires sound { (P.grammar (P.state parser)).meaning.IsSound }
{
    has_one_outcome(&parser);
    parser.parse_complete(input)
}

/// Nested brackets and a semicolon. Each input has one outcome.
pub fn brackets_line(input: &[u8]) -> IResult<&[u8], usize> {
    answer_once(terminated(func(nested_brackets), tag(";")), input)
}
