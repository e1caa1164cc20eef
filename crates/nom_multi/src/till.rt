//! Items until an end.
ghost use Rattle.std.specs.Prelude.{◌≡◌, true, Some, List};
ghost use Rattle.nom_internal.specs.Prelude.{modes, ShowsAnswer};
ghost use Rattle.nom_multi.specs.Till.{IsStep, end_or_item, many_till_of};
ghost use Rattle.nom_multi.specs.Words as Words;

use nom_error::answer::{Err, PResult};
use nom_error::kind::ErrorKind;
use nom_error::mode::{Check, OutputM, OutputMode};
use nom_error::value::{ParseError, refusal};
use nom_internal::built::emitted;
use nom_internal::choice::close_error;
use nom_internal::parser::{Parser, StreamParser};
use nom_internal::sequence::combine;
use nom_repeat::accumulator::{none_yet, push_item};
use nom_traits::input::{Input, Items};
use std::alloc::Allocator;

/// The next piece: the end or an item.
#[derive(Drop)]
pub enum Step<T, V> {
    /// The end.
    End(T),
    /// An item.
    Item(V),
}

/// The parser that `many_till` returns.
#[derive(Drop)]
pub struct ManyTill<A, F, G> {
    pub alloc: A,
    pub parser: F,
    pub end: G,
}

impl<
    I: Input,
    A: Allocator + Copy,
    F: Parser<I> + Drop,
    G: Parser<I, Error = F::Error> + Drop,
> Parser<I> for ManyTill<A, F, G> {
    ghost use Rattle.nom_multi.specs.laws.TillLaws.{many_till_lawful};

    type Output = (Vec<F::Output, A>, G::Output);

    type Error = F::Error;

    ghost State = { F.State × G.State };

    ghost state = { λ p. (F.state p.parser, G.state p.end) };

    ghost Tree = { List F.Tree × G.Tree };

    ghost grammar = { λ s. many_till_of I.model F.Error.errors (F.grammar s.0) (G.grammar s.1) };

    ghost word = { λ s. Words.many_till_of I.model F.Error.errors (F.word s.0) (G.word s.1) };

    ghost worded = { λ s. Words.many_till_worded I.model F.Error.errors (F.worded s.0) (G.worded s.1) };

    #[inline]
    fn process<OM: OutputMode>(&mut self, input: I) -> PResult<I, Self::Output, Self::Error> {
        input.known();
        let mut kept = none_yet::<OM::Output, F::Output, A>(self.alloc);
        let mut rest = input;
        loop {
            match end_or_next::<OM, I, F, G>(&mut self.parser, &mut self.end, rest) {
                Ok((next, stands)) => match emitted(stands) {
                    Step::End(end) => return Ok((next, combine(kept, end))),
                    Step::Item(item) => {
                        if next.input_len() == rest.input_len() {
                            return Err(refusal::<OM::Error, I, F::Error>(rest, ErrorKind::Many0));
                        }
                        push_item::<OM::Output, _, _>(&mut kept, item)?;
                        rest = next;
                    }
                },
                Err(Err::Error(error)) => {
                    return Err(close_error(error, rest, ErrorKind::ManyTill));
                }
                Err(Err::Failure(error)) => return Err(Err::Failure(error)),
                Err(Err::Incomplete(needed)) => return Err(Err::Incomplete(needed)),
                Err(Err::OutOfMemory) => return Err(Err::OutOfMemory),
            }
        }
    }

    ghost lawful = { λ s k. many_till_lawful I.lawful F.Error.errors (F.lawful s.0 k.1) (G.lawful s.1 k.0) };
}

impl<
    I: Input,
    A: Allocator + Copy,
    F: StreamParser<I> + Drop,
    G: StreamParser<I, Error = F::Error> + Drop,
> StreamParser<I> for ManyTill<A, F, G> {
    ghost use Rattle.nom_internal.specs.Pinned.{pair_pinned};
    ghost use Rattle.nom_repeat.specs.Lists.{list_pinned};
    ghost use Rattle.nom_multi.specs.laws.TillLaws.{many_till_steady};

    ghost Pins = { λ p. F.Pins p.parser × G.Pins p.end };

    ghost pinned = { λ p k h. pair_pinned (list_pinned (F.pinned p.parser k.1 h.0)) (G.pinned p.end k.0 h.1) };

    ghost steady = { λ s k. many_till_steady I.lawful F.Error.errors (F.steady s.0 k.1) (G.steady s.1 k.0) };
}

/// Parses the end, or an item if the end refuses.
#[inline(always)]
fn end_or_next<OM: OutputMode, I: Input, F: Parser<I>, G: Parser<I, Error = F::Error>>(
    parser: &mut F,
    end: &mut G,
    input: I,
) -> PResult<I, Step<Option<G::Output>, Option<F::Output>>, F::Error>
    requires parser { (F.grammar (F.state parser.old)).meaning.Runs }
    requires end { (G.grammar (G.state end.old)).meaning.Runs }
    ensures shown { ShowsAnswer I.model (IsStep OM.Output.BUILDS (G.grammar (G.state end.old)).IsOutput (F.grammar (F.state parser.old)).IsOutput)
        (modes true OM.Error.BUILDS OM.Incomplete.STREAMING) input
        ((end_or_item (G.grammar (G.state end.old)).meaning (F.grammar (F.state parser.old)).meaning).answers OM.Incomplete.STREAMING input)
        ((end_or_item (G.grammar (G.state end.old)).meaning (F.grammar (F.state parser.old)).meaning).blames OM.Incomplete.STREAMING input)
        ((end_or_item (G.grammar (G.state end.old)).meaning (F.grammar (F.state parser.old)).meaning).may_run_out
        (modes OM.Output.BUILDS OM.Error.BUILDS OM.Incomplete.STREAMING) input) result }
    ensures parser_kept { F.state parser.new ≡ F.state parser.old }
    ensures end_kept { G.state end.new ≡ G.state end.old }
{
    match end.process::<OutputM<OM::Output, Check, OM::Incomplete>>(input) {
        Ok((rest, end)) => Ok((rest, Some(Step::End(end)))),
        Err(Err::Error(_)) => {
            let (rest, item) = parser.process::<OM>(input)?;
            Ok((rest, Some(Step::Item(item))))
        }
        Err(Err::Failure(error)) => Err(Err::Failure(error)),
        Err(Err::Incomplete(needed)) => Err(Err::Incomplete(needed)),
        Err(Err::OutOfMemory) => Err(Err::OutOfMemory),
    }
}
