//! Parsers whose outputs are tested or replaced.
ghost use Rattle.std.specs.Prelude.{◌≡◌, true};
ghost use Rattle.nom_internal.specs.Cloned.{ClonesConsistently, clones_pinned};
ghost use Rattle.nom_internal.specs.Closures.{GivesAt, TakesAt};
ghost use Rattle.nom_internal.specs.Prelude.{JudgedSideCondition, with_outputs};
ghost use Rattle.nom_internal.specs.laws.JudgedLaws.{judged_lawful, judged_steady};
ghost use Rattle.nom_internal.specs.Words.{mapping};
ghost use Rattle.nom_combinator.specs.Outputs.{value_by, verify_by};
ghost use Rattle.nom_combinator.specs.laws.OutputLaws.{tested_pinned, value_lawful, value_steady};
ghost use Rattle.nom_combinator.specs.Words as Words;

use nom_error::answer::{Err, PResult};
use nom_error::kind::ErrorKind;
use nom_error::mode::{Emit, OutputM, OutputMode};
use nom_error::value::refusal;
use nom_internal::built::{built, cloned};
use nom_internal::parser::{Parser, StreamParser};
use nom_traits::input::Items;
use nom_traits::view::Viewed;

/// Returns whether an output passes a test.
#[inline(always)]
fn passes<O, G: Fn(&O) -> bool>(test: &G, output: &O) -> bool
    requires callable { TakesAt (G.pre test.now) output.now }
    ensures { GivesAt (G.post test.now) output.now result }
{
    test(output)
}

/// The parser that `verify` returns.
///
/// The outputs of its part are always built, because the test examines them.
#[derive(Drop)]
pub struct Verify<F, G> {
    pub parser: F,
    pub test: G,
}

impl<I: Items, A: Drop, F: Parser<I, Output = A> + Drop, G: Fn(&A) -> bool> Parser<I>
    for Verify<F, G> {
    type Output = F::Output;

    type Error = F::Error;

    ghost State = { F.State × G };

    ghost state = { λ p. (F.state p.parser, p.test) };

    ghost Tree = { F.Tree };

    ghost grammar = { λ s. verify_by F.Error.errors (TakesAt (G.pre s.1)) (GivesAt (G.post s.1)) (F.grammar s.0) };

    ghost word = { λ s. Words.verify_of F.Error.errors (mapping (G.pre s.1) (G.post s.1)) (F.word s.0) };

    ghost worded = { λ s. Words.verify_worded F.Error.errors (G.pre s.1) (G.post s.1) (F.worded s.0) };

    ghost SideCondition = { λ mode old new i. JudgedSideCondition (F.SideCondition (with_outputs true mode) old.parser new.parser i) };

    #[inline(always)]
    fn process<OM: OutputMode>(&mut self, input: I) -> PResult<I, F::Output, F::Error> {
        let (rest, output) = self
            .parser
            .process::<OutputM<Emit, OM::Error, OM::Incomplete>>(input)?;
        let output = match output {
            Some(output) => output,
            None => unreachable!(),
        };
        let fits = passes(&self.test, &output);
        if fits {
            Ok((rest, built::<OM::Output, F::Output>(output)))
        } else {
            Err(refusal::<OM::Error, I, F::Error>(input, ErrorKind::Verify))
        }
    }

    ghost lawful = { λ s k. judged_lawful k.1 (F.lawful s.0 k.0) };
}

impl<
    I: Items,
    A: Viewed + Drop,
    F: StreamParser<I, Output = A> + Drop,
    G: Fn(&A) -> bool,
> StreamParser<I> for Verify<F, G> {
    ghost Pins = { λ p. F.Pins p.parser };

    ghost pinned = { λ p k h. tested_pinned (F.pinned p.parser k.0 h) };

    ghost steady = { λ s k. judged_steady k.1 (F.steady s.0 k.0) };
}

/// The parser that `value` returns.
///
/// It clones the value if outputs are built. The outputs of its part are dropped.
#[derive(Drop)]
pub struct Value<O, F> {
    pub value: O,
    pub parser: F,
}

impl<I: Items, O: Clone, F: Parser<I> + Drop> Parser<I> for Value<O, F> {
    type Output = O;

    type Error = F::Error;

    ghost State = { O × F.State };

    ghost state = { λ p. (p.value, F.state p.parser) };

    ghost Tree = { O };

    // a clone of the value
    ghost grammar = { λ s. value_by s.0 (O.is_infallible s.0) (O.is_clone s.0) (F.grammar s.1) };

    ghost word = { λ s. Words.value_of O.is_clone s.0 (O.is_infallible s.0) (F.word s.1) };

    ghost worded = { λ s. Words.value_worded O.is_clone s.0 (O.is_infallible s.0) (F.worded s.1) };

    ghost SideCondition = { λ mode old new i. JudgedSideCondition (F.SideCondition mode old.parser new.parser i) };

    #[inline(always)]
    fn process<OM: OutputMode>(&mut self, input: I) -> PResult<I, O, F::Error> {
        let (rest, _) = self.parser.process::<OM>(input)?;
        match cloned::<OM::Output, O>(&self.value) {
            Ok(output) => Ok((rest, output)),
            Err(_) => Err(Err::OutOfMemory),
        }
    }

    ghost lawful = { λ s k. value_lawful (F.lawful s.1 k) };
}

impl<I: Items, O: Clone + Viewed, F: StreamParser<I> + Drop> StreamParser<I> for Value<O, F> {
    ghost Pins = { λ p. ClonesConsistently O.view O.is_clone p.value };

    ghost pinned = { λ p k h. clones_pinned h };

    ghost steady = { λ s k. value_steady (F.steady s.1 k) };
}
