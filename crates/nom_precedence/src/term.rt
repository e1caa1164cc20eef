//! Terms: prefixes, an operand, postfixes.
ghost use Rattle.std.specs.Prelude.{◌≡◌, IsSome, None, Some, true, MatchOption};
ghost use Rattle.nom.specs.Prelude.{BuiltFrom, BuiltFromBoth, modes};
ghost use Rattle.nom_precedence.specs.Readings.{AppliedPushes, Before, ShowsRead, tail_by, term_by};
ghost use Rattle.nom_operators.specs.Prefixes.{prefixes_in};
ghost use Rattle.nom_operators.specs.declared.operation.Operation.{Operation};
ghost use Rattle.nom_operators.specs.declared.operation.Operation.TheVariants.{Postfix, Prefix};

use crate::prefixes::under;
use crate::read::{Read, affixes};
use nom::extend::{Accumulator, emitted};
use nom::{Input, Items, OutOfMemory, OutputMode, PResult, Parser};
use nom_operators::operation::Operation;
use nom_operators::prefixes::{Prefixes, no_prefixes};
use std::alloc::Allocator;
use std::marker::PhantomData;

/// A value under postfixes, each of which is applied to it in turn.
#[derive(Drop)]
pub struct Applied<'a, P, B, O, G> {
    pub value: Option<O>,
    pub fold: &'a G,
    pub of: PhantomData<(P, B)>,
}

impl<'a, P: Drop, Q: Drop, B: Drop, O: Drop, G: Fn(Operation<P, Q, B, O>) -> O> Accumulator<Q>
    for Applied<'a, P, B, O, G> {
    ghost Pushes = { λ old x new. AppliedPushes (λ k. k.value) (λ k. k.fold.now) (λ f r c y. G.post f (Postfix r c) y) old x new };

    ghost CanPush = { λ k. IsSome k.value × ((x : Operation P Q B O) → G.pre k.fold.now x) };

    ghost LacksRoom = { λ _ _ _. ⊥ };

    ghost Grows = { ⊥ };

    ghost lacking = { λ _ _ _ h. h };

    #[inline(always)]
    fn push(&mut self, item: Q) -> Result<(), OutOfMemory> {
        match self.value.take() {
            Some(value) => {
                self.value = Some((self.fold)(Operation::Postfix(value, item)));
                Ok(())
            }
            None => unreachable!(),
        }
    }
}

/// Returns the operand's value under postfixes to come, if it is built.
#[inline(always)]
fn held<'a, P, B, O, G>(operand: Option<O>, fold: &'a G) -> Option<Applied<'a, P, B, O, G>>
    ensures { BuiltFrom true (λ x k. (k.value ≡ Some x) × (k.fold.now ≡ fold.now)) operand result }
{
    match operand {
        Some(value) => Some(Applied {
            value: Some(value),
            fold,
            of: PhantomData,
        }),
        None => None,
    }
}

/// Returns the value under the postfixes, if it is built.
#[inline(always)]
fn value_of<'a, P: Drop, B: Drop, O: Drop, G>(applied: Option<Applied<'a, P, B, O, G>>) -> Option<O>
    ensures { MatchOption applied.entry (result ≡ None) (λ k. result ≡ k.value) }
{
    match applied {
        Some(applied) => applied.value,
        None => None,
    }
}

/// Returns the value of a term, if it is built.
#[inline(always)]
fn finished<P: Drop, Q: Drop, B: Drop, O: Drop, A: Allocator, G: Fn(Operation<P, Q, B, O>) -> O>(
    prefixes: Option<Prefixes<P, A>>,
    value: Option<O>,
    fold: &G,
) -> Option<O>
    requires { (x : Operation P Q B O) → G.pre fold.now x }
    ensures { BuiltFromBoth true (λ ps x y. Before (λ p a b. G.post fold.now (Prefix p a) b) (prefixes_in ps) x y) prefixes value result }
{
    match prefixes {
        Some(prefixes) => match value {
            Some(value) => Some(under(prefixes, value, fold)),
            None => None,
        },
        None => None,
    }
}

/// Parses an operand and postfixes.
fn tail<
    OM: OutputMode,
    I: Input,
    P: Drop,
    F: Parser<I>,
    Q: Parser<I, Error = F::Error>,
    B: Drop,
    G: Fn(Operation<P, Q::Output, B, F::Output>) -> F::Output,
>(
    operand: &mut F,
    postfix: &mut Q,
    fold: &G,
    input: I,
) -> PResult<I, Read<Option<F::Output>>, F::Error>
    requires operand { (F.grammar (F.state operand.old)).meaning.Runs }
    requires postfix { (Q.grammar (Q.state postfix.old)).meaning.Runs }
    requires fold { (x : Operation P Q.Output B F.Output) → G.pre fold.now x }
    ensures shown { ShowsRead I.model (tail_by I.model (F.grammar (F.state operand.old)) (Q.grammar (Q.state postfix.old))
        (λ x c. G.post fold.now (Postfix x c))) (modes OM.Output.BUILDS OM.Error.BUILDS OM.Incomplete.STREAMING) input result }
    ensures operand_kept { F.state operand.new ≡ F.state operand.old }
    ensures postfix_kept { Q.state postfix.new ≡ Q.state postfix.old }
{
    let (rest, value) = operand.process::<OM>(input)?;
    let first = held::<P, B, F::Output, G>(value, fold);
    let (end, after) = affixes::<OM, I, Q, Applied<'_, P, B, F::Output, G>>(postfix, rest, first)?;
    match emitted(after) {
        Read::Stuck => Ok((end, Some(Read::Stuck))),
        Read::Whole(applied) => Ok((end, Some(Read::Whole(value_of(applied))))),
    }
}

/// Parses a term: prefixes, an operand, postfixes.
pub fn term<
    OM: OutputMode,
    I: Input,
    A: Allocator + Copy,
    P: Parser<I, Error = F::Error>,
    F: Parser<I>,
    Q: Parser<I, Error = F::Error>,
    B: Drop,
    G: Fn(Operation<P::Output, Q::Output, B, F::Output>) -> F::Output,
>(
    alloc: A,
    prefix: &mut P,
    operand: &mut F,
    postfix: &mut Q,
    fold: &G,
    input: I,
) -> PResult<I, Read<Option<F::Output>>, F::Error>
    requires prefix { (P.grammar (P.state prefix.old)).meaning.Runs }
    requires operand { (F.grammar (F.state operand.old)).meaning.Runs }
    requires postfix { (Q.grammar (Q.state postfix.old)).meaning.Runs }
    requires fold { (x : Operation P.Output Q.Output B F.Output) → G.pre fold.now x }
    ensures shown { ShowsRead I.model (term_by I.model (P.grammar (P.state prefix.old)) (F.grammar (F.state operand.old)) (Q.grammar (Q.state postfix.old))
        (G.post fold.now)) (modes OM.Output.BUILDS OM.Error.BUILDS OM.Incomplete.STREAMING) input result }
    ensures prefix_kept { P.state prefix.new ≡ P.state prefix.old }
    ensures operand_kept { F.state operand.new ≡ F.state operand.old }
    ensures postfix_kept { Q.state postfix.new ≡ Q.state postfix.old }
{
    let none = no_prefixes::<OM::Output, P::Output, A>(alloc);
    let (rest, before) = affixes::<OM, I, P, Prefixes<P::Output, A>>(prefix, input, none)?;
    match emitted(before) {
        Read::Stuck => Ok((rest, Some(Read::Stuck))),
        Read::Whole(prefixes) => {
            let (end, after) = tail::<OM, I, P::Output, F, Q, B, G>(operand, postfix, fold, rest)?;
            match emitted(after) {
                Read::Stuck => Ok((end, Some(Read::Stuck))),
                Read::Whole(value) => Ok((end, Some(Read::Whole(finished(prefixes, value, fold))))),
            }
        }
    }
}
