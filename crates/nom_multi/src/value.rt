//! A value after the length of the input that it is read from.
ghost use Rattle.std.specs.Prelude.{◌≡◌};
ghost use Rattle.nom_error.specs.declared.kind.ErrorKind.TheVariants as Kind;
ghost use Rattle.nom_internal.specs.Prelude.{modes, ShowsMeaning, IsPinned};
ghost use Rattle.nom_multi.specs.Values.{SettlesResult, settled_meaning, values_by_length, length_value_of};
ghost use Rattle.nom_multi.specs.LengthWords as Words;

use crate::cut::cut;
use nom_error::answer::{Err, PResult};
use nom_error::kind::ErrorKind;
use nom_error::mode::{Emit, Mode, OutputM, OutputMode};
use nom_error::value::{ParseError, refusal};
use nom_internal::parser::{Parser, StreamParser};
use nom_traits::convert::ToUsize;
use nom_traits::input::{Input, Items};
use nom_traits::view::Viewed;

/// The parser that `length_value` returns: a length, and a parser on exactly that much of the input after it.
#[derive(Drop)]
pub struct LengthValue<F, G> {
    pub length: F,
    pub parser: G,
}

/// Turns a need for more input into a refusal, because the input is all there is.
#[inline(always)]
fn settle<M: Mode, I: Drop, T, E: ParseError<I>>(
    answer: Result<T, Err<E, Option<E>>>,
    input: I,
) -> Result<T, Err<E, Option<E>>>
    ensures { SettlesResult (E.errors.of_kind input Kind.Complete) E.errors.grows M.BUILDS answer result }
{
    match answer {
        Ok(accepted) => Ok(accepted),
        Err(Err::Incomplete(_)) => Err(refusal::<M, I, E>(input, ErrorKind::Complete)),
        Err(Err::Error(error)) => Err(Err::Error(error)),
        Err(Err::Failure(error)) => Err(Err::Failure(error)),
        Err(Err::OutOfMemory) => Err(Err::OutOfMemory),
    }
}

/// Runs a parser on all the input there is, in the requested mode.
#[inline(always)]
fn settled<OM: OutputMode, I: Input, G: Parser<I>>(
    parser: &mut G,
    input: I,
) -> PResult<I, G::Output, G::Error>
    requires runs { (G.grammar (G.state parser.old)).meaning.Runs }
    ensures shown { ShowsMeaning I.model (G.grammar (G.state parser.old)).IsOutput (settled_meaning G.Error.errors (G.grammar (G.state parser.old)).meaning)
        (modes OM.Output.BUILDS OM.Error.BUILDS OM.Incomplete.STREAMING) input result }
    ensures kept { G.state parser.new ≡ G.state parser.old }
{
    settle::<OM::Error, I, (I, Option<G::Output>), G::Error>(parser.process::<OM>(input), input)
}

/// Runs a parser on the first items of an input, with a total length of `length`. Its rest is dropped.
#[inline(always)]
fn within<OM: OutputMode, I: Input, G: Parser<I>>(
    parser: &mut G,
    input: I,
    length: usize,
) -> PResult<I, G::Output, G::Error>
    requires runs { (G.grammar (G.state parser.old)).meaning.Runs }
    ensures shown { ShowsMeaning I.model (G.grammar (G.state parser.old)).IsOutput
        ((values_by_length I.model G.Error.errors (G.grammar (G.state parser.old)).meaning).at length)
        (modes OM.Output.BUILDS OM.Error.BUILDS OM.Incomplete.STREAMING) input result }
    ensures kept { G.state parser.new ≡ G.state parser.old }
{
    let (rest, slice) = cut::<OutputM<Emit, OM::Error, OM::Incomplete>, I, G::Error>(
        input, length,
    )?;
    let bound = match slice {
        Some(slice) => slice,
        None => unreachable!(),
    };
    bound.known();
    let (_, output) = settled::<OM, I, G>(parser, bound)?;
    Ok((rest, output))
}

impl<I: Input, F: Parser<I, Output: ToUsize> + Drop, G: Parser<I, Error = F::Error> + Drop> Parser<
    I,
> for LengthValue<F, G> {
    ghost use Rattle.nom_multi.specs.laws.ValueLaws.{length_value_lawful};

    type Output = G::Output;

    type Error = F::Error;

    ghost State = { F.State × G.State };

    ghost state = { λ p. (F.state p.length, G.state p.parser) };

    ghost Tree = { G.Tree };

    ghost grammar = { λ s. length_value_of I.model F.Error.errors F.Output.size (F.grammar s.0) (G.grammar s.1) };

    ghost word = { λ s. Words.length_value_of I.model F.Error.errors F.Output.size (F.word s.0) (G.word s.1) };

    ghost worded = { λ s. Words.length_value_worded I.model F.Error.errors F.Output.size (F.worded s.0) (G.worded s.1) };

    // The second needn't be a stream parser, which alone has a law of what it pins.

    #[inline(always)]
    fn process<OM: OutputMode>(&mut self, input: I) -> PResult<I, G::Output, F::Error> {
        let (rest, length) = self
            .length
            .process::<OutputM<Emit, OM::Error, OM::Incomplete>>(input)?;
        match length {
            Some(length) => within::<OM, I, G>(&mut self.parser, rest, length.to_usize()),
            None => unreachable!(),
        }
    }

    ghost lawful = { λ s k. length_value_lawful I.lawful F.Error.errors (G.lawful s.1 k.1.0) k.1.1 (F.lawful s.0 k.0) };
}

impl<
    I: Input,
    F: StreamParser<I, Output: ToUsize> + Drop,
    G: Parser<I, Output: Viewed, Error = F::Error> + Drop,
> StreamParser<I> for LengthValue<F, G> {
    ghost use Rattle.nom_multi.specs.laws.ValueLaws.{length_value_steady};

    ghost Pins = { λ p. IsPinned G.Output.view (G.grammar (G.state p.parser)).IsOutput };

    ghost pinned = { λ p k h. h };

    ghost steady = { λ s k. length_value_steady I.lawful F.Error.errors (G.lawful s.1 k.1.0) k.1.1 (F.steady s.0 k.0) };
}
