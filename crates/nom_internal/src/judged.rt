//! Parsers whose acceptances a closure judges by its result for the output.
ghost use Rattle.std.specs.Prelude.{true, Some, Ok};
ghost use Rattle.nom_error.specs.Answers.{Refuses};
ghost use Rattle.nom_error.specs.Modes.{with_outputs};
ghost use Rattle.nom_internal.specs.Closures.{SeesConsistently};
ghost use Rattle.nom_internal.specs.Judged.{map_opt_by, map_res_by};
ghost use Rattle.nom_internal.specs.Results.{JudgedSideCondition};
ghost use Rattle.nom_internal.specs.laws.JudgedLaws.{judged_lawful, judged_steady};
ghost use Rattle.nom_internal.specs.laws.MappedLaws.{given_pinned};
ghost use Rattle.nom_internal.specs.Words as Words;

use crate::built::built;
use crate::parser::{Parser, StreamParser};
use nom_error::answer::{Err, PResult};
use nom_error::kind::ErrorKind;
use nom_error::mode::{Emit, Mode, OutputM, OutputMode};
use nom_error::outside::FromExternalError;
use nom_error::value::refusal;
use nom_traits::input::Items;
use nom_traits::view::Viewed;

/// The parser that `map_opt` returns. A closure maps its outputs, or refuses them.
///
/// The outputs of the inner parser are always built, because the closure judges them.
#[derive(Drop)]
pub struct MapOpt<F, G> {
    pub parser: F,
    pub map: G,
}

impl<I: Items, A: Drop, F: Parser<I, Output = A> + Drop, O: Drop, G: Fn(A) -> Option<O>> Parser<I>
    for MapOpt<F, G> {
    type Output = O;

    type Error = F::Error;

    ghost State = { F.State × G };

    ghost state = { λ p. (F.state p.parser, p.map) };

    ghost Tree = { F.Tree };

    ghost grammar = { λ s. map_opt_by F.Error.errors (G.pre s.1) (G.post s.1) (F.grammar s.0) };

    ghost word = { λ s. Words.map_opt_of F.Error.errors (Words.mapping (G.pre s.1) (G.post s.1)) (F.word s.0) };

    ghost worded = { λ s. Words.map_opt_worded F.Error.errors (G.pre s.1) (G.post s.1) (F.worded s.0) };

    ghost SideCondition = { λ mode old new i. JudgedSideCondition (F.SideCondition (with_outputs true mode) old.parser new.parser i) };

    #[inline(always)]
    fn process<OM: OutputMode>(&mut self, input: I) -> PResult<I, O, F::Error> {
        let (rest, output) = self
            .parser
            .process::<OutputM<Emit, OM::Error, OM::Incomplete>>(input)?;
        let output = match output {
            Some(output) => output,
            None => unreachable!(),
        };
        match (self.map)(output) {
            Some(mapped) => Ok((rest, built::<OM::Output, O>(mapped))),
            None => Err(refusal::<OM::Error, I, F::Error>(input, ErrorKind::MapOpt)),
        }
    }

    ghost lawful = { λ s k. judged_lawful k.1 (F.lawful s.0 k.0) };
}

impl<
    I: Items,
    A: Viewed + Drop,
    F: StreamParser<I, Output = A> + Drop,
    O: Viewed + Drop,
    G: Fn(A) -> Option<O>,
> StreamParser<I> for MapOpt<F, G> {
    ghost Pins = { λ p. F.Pins p.parser × SeesConsistently A.view O.view (λ a o. G.post p.map a (Some o)) };

    ghost pinned = { λ p k h. given_pinned (F.pinned p.parser k.0 h.0) h.1 };

    ghost steady = { λ s k. judged_steady k.1 (F.steady s.0 k.0) };
}

/// Returns a refusal with an error that is made of another, if errors are built.
#[inline(always)]
fn outside_refusal<M: Mode, I: Drop, X: Drop, E: FromExternalError<I, X> + Drop>(
    input: I,
    kind: ErrorKind,
    error: X,
) -> Err<E, Option<E>>
    ensures { Refuses (E.externals.of_external input kind error) E.externals.grows M.BUILDS result }
{
    if M::BUILDS {
        match E::from_external_error(input, kind, error) {
            Ok(made) => Err::Error(Some(made)),
            Err(_) => Err::OutOfMemory,
        }
    } else {
        Err::Error(None)
    }
}

/// The parser that `map_res` returns. A closure maps its outputs, or refuses them with an error.
///
/// The outputs of the inner parser are always built, because the closure judges them.
#[derive(Drop)]
pub struct MapRes<F, G> {
    pub parser: F,
    pub map: G,
}

impl<
    I: Items,
    X: Drop,
    A: Drop,
    F: Parser<I, Output = A> + Drop,
    O: Drop,
    G: Fn(A) -> Result<O, X>,
> Parser<I> for MapRes<F, G>
where
    F::Error: FromExternalError<I, X>,
{
    type Output = O;

    type Error = F::Error;

    ghost State = { F.State × G };

    ghost state = { λ p. (F.state p.parser, p.map) };

    ghost Tree = { F.Tree };

    ghost grammar = { λ s. map_res_by F.Error.externals (G.pre s.1) (G.post s.1) (F.grammar s.0) };

    ghost word = { λ s. Words.map_res_of F.Error.externals (Words.mapping (G.pre s.1) (G.post s.1)) (F.word s.0) };

    ghost worded = { λ s. Words.map_res_worded F.Error.externals (G.pre s.1) (G.post s.1) (F.worded s.0) };

    ghost SideCondition = { λ mode old new i. JudgedSideCondition (F.SideCondition (with_outputs true mode) old.parser new.parser i) };

    #[inline(always)]
    fn process<OM: OutputMode>(&mut self, input: I) -> PResult<I, O, F::Error> {
        let (rest, output) = self
            .parser
            .process::<OutputM<Emit, OM::Error, OM::Incomplete>>(input)?;
        let output = match output {
            Some(output) => output,
            None => unreachable!(),
        };
        match (self.map)(output) {
            Ok(mapped) => Ok((rest, built::<OM::Output, O>(mapped))),
            Err(error) => Err(outside_refusal::<OM::Error, I, X, F::Error>(
                input,
                ErrorKind::MapRes,
                error,
            )),
        }
    }

    ghost lawful = { λ s k. judged_lawful k.1 (F.lawful s.0 k.0) };
}

impl<
    I: Items,
    X: Drop,
    A: Viewed + Drop,
    F: StreamParser<I, Output = A> + Drop,
    O: Viewed + Drop,
    G: Fn(A) -> Result<O, X>,
> StreamParser<I> for MapRes<F, G>
where
    F::Error: FromExternalError<I, X>,
{
    ghost Pins = { λ p. F.Pins p.parser × SeesConsistently A.view O.view (λ a o. G.post p.map a (Ok o)) };

    ghost pinned = { λ p k h. given_pinned (F.pinned p.parser k.0 h.0) h.1 };

    ghost steady = { λ s k. judged_steady k.1 (F.steady s.0 k.0) };
}
