//! Items with a separator between them.
ghost use Rattle.std.specs.Prelude.{◌≡◌, true, List};
ghost use Rattle.nom_internal.specs.Prelude.{Built, modes, ShowsAnswer};
ghost use Rattle.nom_separated.specs.Separated.{Found, optional_meaning, separated_list0_of, separated_list1_of};
ghost use Rattle.nom_separated.specs.Words as Words;

use nom_error::answer::{Err, PResult};
use nom_error::kind::ErrorKind;
use nom_error::mode::{Check, OutputM, OutputMode};
use nom_error::value::ParseError;
use nom_internal::parser::{Parser, StreamParser};
use nom_repeat::accumulator::{Accumulator, none_yet, push_item};
use nom_repeat::bounds::{any_items, one_item};
use nom_repeat::items::TooFew;
use nom_sequence::Preceded;
use nom_traits::input::{Input, Items};
use std::alloc::Allocator;

/// The parser that `separated_list1` returns.
#[derive(Drop)]
pub struct SeparatedList1<A, G, F> {
    pub alloc: A,
    /// A separator and the item after it.
    pub next: Preceded<G, F>,
}

impl<
    I: Input,
    A: Allocator + Copy,
    F: Parser<I> + Drop,
    G: Parser<I, Error = F::Error> + Drop,
> Parser<I> for SeparatedList1<A, G, F> {
    ghost use Rattle.nom_separated.specs.laws.SeparatedLaws.{separated1_lawful};

    type Output = Vec<F::Output, A>;

    type Error = F::Error;

    ghost State = { G.State × F.State };

    ghost state = { λ p. (G.state p.next.first, F.state p.next.second) };

    ghost Tree = { List F.Tree };

    ghost grammar = { λ s. separated_list1_of I.model F.Error.errors (G.grammar s.0) (F.grammar s.1) };

    ghost word = { λ s. Words.separated_list1_of I.model F.Error.errors (G.word s.0) (F.word s.1) };

    ghost worded = { λ s. Words.separated_list1_worded I.model F.Error.errors (G.worded s.0) (F.worded s.1) };

    #[inline]
    fn process<OM: OutputMode>(&mut self, input: I) -> PResult<I, Self::Output, Self::Error> {
        let none = none_yet::<OM::Output, F::Output, A>(self.alloc);
        let (rest, first) = one_item::<OM, OM::Error, I, F, Vec<F::Output, A>>(
            &mut self.next.second,
            input,
            none,
            TooFew::Passed,
            false,
        )?;
        any_items::<OM, I, Preceded<G, F>, Vec<F::Output, A>>(
            &mut self.next,
            rest,
            first,
            ErrorKind::SeparatedList,
        )
    }

    ghost lawful = { λ s k. separated1_lawful I.lawful F.Error.errors (G.lawful s.0 k.1.0) (F.lawful s.1 k.0) };
}

impl<
    I: Input,
    A: Allocator + Copy,
    F: StreamParser<I> + Drop,
    G: StreamParser<I, Error = F::Error> + Drop,
> StreamParser<I> for SeparatedList1<A, G, F> {
    ghost use Rattle.nom_repeat.specs.Lists.{list_pinned};
    ghost use Rattle.nom_separated.specs.laws.SeparatedLaws.{separated1_steady};

    ghost Pins = { λ p. F.Pins p.next.second };

    ghost pinned = { λ p k h. list_pinned (F.pinned p.next.second k.0 h) };

    ghost steady = { λ s k. separated1_steady I.lawful F.Error.errors (G.steady s.0 k.1.0) (F.steady s.1 k.0) };
}

/// The parser that `separated_list0` returns.
#[derive(Drop)]
pub struct SeparatedList0<A, G, F> {
    pub alloc: A,
    /// A separator and the item after it.
    pub next: Preceded<G, F>,
}

impl<
    I: Input,
    A: Allocator + Copy,
    F: Parser<I> + Drop,
    G: Parser<I, Error = F::Error> + Drop,
> Parser<I> for SeparatedList0<A, G, F> {
    ghost use Rattle.nom_separated.specs.laws.SeparatedLaws.{separated0_lawful};

    type Output = Vec<F::Output, A>;

    type Error = F::Error;

    ghost State = { G.State × F.State };

    ghost state = { λ p. (G.state p.next.first, F.state p.next.second) };

    ghost Tree = { List F.Tree };

    ghost grammar = { λ s. separated_list0_of I.model F.Error.errors (G.grammar s.0) (F.grammar s.1) };

    ghost word = { λ s. Words.separated_list0_of I.model F.Error.errors (G.word s.0) (F.word s.1) };

    ghost worded = { λ s. Words.separated_list0_worded I.model F.Error.errors (G.worded s.0) (F.worded s.1) };

    #[inline]
    fn process<OM: OutputMode>(&mut self, input: I) -> PResult<I, Self::Output, Self::Error> {
        let none = none_yet::<OM::Output, F::Output, A>(self.alloc);
        let (rest, first) = first_item::<OM, I, F, Vec<F::Output, A>>(
            &mut self.next.second,
            input,
            none,
        )?;
        match first {
            Some((found, list)) => {
                if !found {
                    return Ok((rest, list));
                }
                any_items::<OM, I, Preceded<G, F>, Vec<F::Output, A>>(
                    &mut self.next,
                    rest,
                    list,
                    ErrorKind::SeparatedList,
                )
            }
            None => unreachable!(),
        }
    }

    ghost lawful = { λ s k. separated0_lawful I.lawful F.Error.errors (G.lawful s.0 k.1.0) (F.lawful s.1 k.0) };
}

impl<
    I: Input,
    A: Allocator + Copy,
    F: StreamParser<I> + Drop,
    G: StreamParser<I, Error = F::Error> + Drop,
> StreamParser<I> for SeparatedList0<A, G, F> {
    ghost use Rattle.nom_repeat.specs.Lists.{list_pinned};
    ghost use Rattle.nom_separated.specs.laws.SeparatedLaws.{separated0_steady};

    ghost Pins = { λ p. F.Pins p.next.second };

    ghost pinned = { λ p k h. list_pinned (F.pinned p.next.second k.0 h) };

    ghost steady = { λ s k. separated0_steady I.lawful F.Error.errors (G.steady s.0 k.1.0) (F.steady s.1 k.0) };
}

/// Parses the first item if it isn't refused. Returns whether there is one, and the accumulated outputs.
#[inline(always)]
fn first_item<OM: OutputMode, I: Input, F: Parser<I>, K: Accumulator<F::Output> + Drop>(
    parser: &mut F,
    input: I,
    before: Option<K>,
) -> PResult<I, (bool, Option<K>), F::Error>
    requires runs { (F.grammar (F.state parser.old)).meaning.Runs }
    requires built { Built OM.Output.BUILDS K.CanPush before }
    ensures shown { ShowsAnswer I.model (Found K.Pushes K.CanPush (F.grammar (F.state parser.old)).IsOutput OM.Output.BUILDS before)
        (modes true OM.Error.BUILDS OM.Incomplete.STREAMING) input
        ((optional_meaning I.model F.Error.errors K.Grows (F.grammar (F.state parser.old)).meaning).answers OM.Incomplete.STREAMING input)
        ((optional_meaning I.model F.Error.errors K.Grows (F.grammar (F.state parser.old)).meaning).blames OM.Incomplete.STREAMING input)
        ((optional_meaning I.model F.Error.errors K.Grows (F.grammar (F.state parser.old)).meaning).may_run_out
        (modes OM.Output.BUILDS OM.Error.BUILDS OM.Incomplete.STREAMING) input) result }
    ensures kept { F.state parser.new ≡ F.state parser.old }
{
    input.known();
    let mut kept = before;
    match parser.process::<OutputM<OM::Output, Check, OM::Incomplete>>(input) {
        Ok((rest, item)) => {
            push_item::<OM::Output, _, _>(&mut kept, item)?;
            Ok((rest, Some((true, kept))))
        }
        Err(Err::Error(_)) => Ok((input, Some((false, kept)))),
        Err(Err::Failure(error)) => Err(Err::Failure(error)),
        Err(Err::Incomplete(needed)) => Err(Err::Incomplete(needed)),
        Err(Err::OutOfMemory) => Err(Err::OutOfMemory),
    }
}
