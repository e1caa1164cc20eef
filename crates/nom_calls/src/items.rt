//! The iterator and its state.
ghost use Rattle.std.specs.Prelude.{◌≡◌};
ghost use Rattle.nom_calls.specs.Steps.{IsFinish, IsStep, Moves};
ghost use Rattle.nom_calls.specs.declared.items.State.TheVariants.{Running};

use nom_error::answer::{Err, IResult, Needed};
use nom_error::value::ParseError;
use nom_internal::parser::Parser;
use nom_traits::input::Items;

/// The state of an iterator: more items may follow, or the reason for its end.
///
/// The reason is a refusal, or an answer that `finish` returns.
#[derive(Drop)]
pub enum State<E> {
    Running,
    Done,
    Failure(E),
    Incomplete(Needed),
    OutOfMemory,
}

/// The iterator that `iterator` returns. Each `next` returns one item. It holds the place that it has
/// reached.
#[derive(Drop)]
pub struct ParserIterator<I, E, F> {
    pub parser: F,
    pub input: I,
    pub state: State<E>,
}

/// Returns the output of an answer at `input`, the place after it, and the new state.
#[inline(always)]
fn moved<I: Drop, O: Drop, E: Drop>(input: I, answer: IResult<I, O, E>) -> (Option<O>, I, State<E>)
    ensures { Moves input answer result.0 result.1 result.2 }
{
    match answer {
        Ok((rest, output)) => (Some(output), rest, State::Running),
        Err(Err::Error(_)) => (None, input, State::Done),
        Err(Err::Failure(error)) => (None, input, State::Failure(error)),
        Err(Err::Incomplete(needed)) => (None, input, State::Incomplete(needed)),
        Err(Err::OutOfMemory) => (None, input, State::OutOfMemory),
    }
}

impl<I: Items, E: ParseError<I>, F: Parser<I, Error = E> + Drop> Iterator
    for ParserIterator<I, E, F> {
    type Item = F::Output;

    // The parser runs.
    ghost can_next = { λ s. (F.grammar (F.state s.parser)).meaning.Runs };

    ghost next_gives = { λ s r t. IsStep I.model (F.grammar (F.state s.parser)).IsOutput (F.grammar (F.state s.parser)).meaning (F.state s.parser)
        (F.state t.parser) s.input s.state r t.input t.state };

    #[inline(always)]
    fn next(&mut self) -> Option<F::Output> {
        match self.state {
            State::Running => {}
            _ => return None,
        }
        let answer = self.parser.parse(self.input);
        let (output, place, state) = moved(self.input, answer);
        self.input = place;
        self.state = state;
        output
    }
}

impl<I: Drop, E: Drop, F: Drop> ParserIterator<I, E, F> {
    /// Returns the rest of the input, or the answer that ended the items.
    ///
    /// It returns the rest if a refusal ended the items, or if more may follow.
    pub fn finish(self) -> IResult<I, (), E>
        ensures { IsFinish self.input self.state result }
    {
        let ParserIterator { input, state, .. } = self;
        match state {
            State::Running => Ok((input, ())),
            State::Done => Ok((input, ())),
            State::Failure(error) => Err(Err::Failure(error)),
            State::Incomplete(needed) => Err(Err::Incomplete(needed)),
            State::OutOfMemory => Err(Err::OutOfMemory),
        }
    }
}

/// Returns an iterator over the items of `input`.
///
/// The parser accepts each item. Each item begins where the one before ended.
#[inline(always)]
pub fn iterator<I, E, F>(input: I, parser: F) -> ParserIterator<I, E, F>
    ensures parser { result.parser ≡ parser }
    ensures input { result.input ≡ input }
    ensures runs { result.state ≡ Running }
{
    ParserIterator {
        parser,
        input,
        state: State::Running,
    }
}
