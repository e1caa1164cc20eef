//! Pairs of an operator and a term, in turn.
ghost use Rattle.std.specs.Prelude.{◌≡◌, ◌≤◌, [], IfSome, IsSome, None, true, length, vec_capacity, vec_len};
ghost use Rattle.nom.specs.Prelude.{Built, BuiltFrom, BuiltFromBoth, modes};
ghost use Rattle.nom_operators.specs.Groups.{groups_left};
ghost use Rattle.nom_operators.specs.Steps.{HasOutermost, Joined, Pushed, waiting};
ghost use Rattle.nom_precedence.specs.Readings.{AreKept, ShowsRead, ShowsBuilt, operator_of, pair_by, pairs_by, term_by};
ghost use Rattle.nom_operators.specs.declared.operation.Operation.{Operation};
ghost use Rattle.nom_operators.specs.declared.operation.Operation.TheVariants.{Binary};

use crate::read::Read;
use crate::term::term;
use nom::error::ErrorKind;
use nom::extend::{emitted, failure};
use nom::{Check, Emit, Err, Input, Items, OutputM, OutputMode, PResult, Parser};
use nom_operators::operation::{Assoc, Operation};
use nom_operators::waiting::{Held, close_all, put};
use std::alloc::Allocator;

/// Parses an operator with its level, which is built in every mode. A level that doesn't exist is a failure.
fn operator<OM: OutputMode, I: Input, B: Drop, C: Parser<I, Output = (usize, B)>>(
    binary: &mut C,
    levels: &[Assoc],
    input: I,
) -> PResult<I, (usize, B), C::Error>
    requires { (C.grammar (C.state binary.old)).meaning.Runs }
    ensures shown { let own = operator_of C.Error.errors (length levels.now) (C.grammar (C.state binary.old)) in
        ShowsBuilt I.model own.IsOutput own.meaning (modes OM.Output.BUILDS OM.Error.BUILDS OM.Incomplete.STREAMING) input result }
    ensures kept { C.state binary.new ≡ C.state binary.old }
{
    let (rest, read) = binary.process::<OutputM<Emit, OM::Error, OM::Incomplete>>(input)?;
    let own = emitted(read);
    if own.0 < levels.len() {
        Ok((rest, Some(own)))
    } else {
        Err(failure::<I, C::Error>(input, ErrorKind::Precedence))
    }
}

/// Joins an operator's output with that of its term, if both are built.
#[inline(always)]
fn both<B: Drop, O: Drop>(operator: (usize, B), value: Option<O>) -> Option<((usize, B), O)>
    ensures { BuiltFrom true (λ x o. o ≡ (operator, x)) value result }
{
    match value {
        Some(value) => Some((operator, value)),
        None => None,
    }
}

/// Parses an operator and a term.
fn pair<
    OM: OutputMode,
    I: Input,
    A: Allocator + Copy,
    P: Parser<I, Error = F::Error>,
    F: Parser<I>,
    Q: Parser<I, Error = F::Error>,
    B: Drop,
    C: Parser<I, Output = (usize, B), Error = F::Error>,
    G: Fn(Operation<P::Output, Q::Output, B, F::Output>) -> F::Output,
>(
    alloc: A,
    levels: &[Assoc],
    prefix: &mut P,
    operand: &mut F,
    postfix: &mut Q,
    binary: &mut C,
    fold: &G,
    input: I,
) -> PResult<I, Read<Option<((usize, B), F::Output)>>, F::Error>
    requires prefix { (P.grammar (P.state prefix.old)).meaning.Runs }
    requires operand { (F.grammar (F.state operand.old)).meaning.Runs }
    requires postfix { (Q.grammar (Q.state postfix.old)).meaning.Runs }
    requires binary { (C.grammar (C.state binary.old)).meaning.Runs }
    requires fold { (x : Operation P.Output Q.Output B F.Output) → G.pre fold.now x }
    ensures shown { ShowsRead I.model (pair_by I.model F.Error.errors (length levels.now) (C.grammar (C.state binary.old)) (term_by I.model
        (P.grammar (P.state prefix.old)) (F.grammar (F.state operand.old)) (Q.grammar (Q.state postfix.old)) (G.post fold.now)))
        (modes OM.Output.BUILDS OM.Error.BUILDS OM.Incomplete.STREAMING) input result }
    ensures kept { AreKept (P.state prefix.new) (P.state prefix.old) (F.state operand.new) (F.state operand.old) (Q.state postfix.new) (Q.state postfix.old)
        (C.state binary.new) (C.state binary.old) }
{
    let (rest, read) = operator::<OM, I, B, C>(binary, levels, input)?;
    let own = emitted(read);
    let (end, after) = term::<OM, I, A, P, F, Q, B, G>(
        alloc, prefix, operand, postfix, fold, rest,
    )?;
    match emitted(after) {
        Read::Stuck => Ok((end, Some(Read::Stuck))),
        Read::Whole(value) => Ok((end, Some(Read::Whole(both(own, value))))),
    }
}

/// Returns the held state for the value of a first term, if it is built.
#[inline(always)]
fn begun<O, B>(first: Option<O>) -> Option<Held<O, B>>
    ensures { BuiltFrom true (λ x k. (k.value ≡ x) × (k.innermost ≡ None)) first result }
{
    match first {
        Some(value) => Some(Held {
            value,
            innermost: None,
        }),
        None => None,
    }
}

/// Returns the held state after an operator and the value of its term, if they are built.
///
/// It returns `None` if there is no memory for an operator that waits.
#[inline(always)]
fn grown<P: Drop, Q: Drop, B: Drop, O: Drop, A: Allocator, G: Fn(Operation<P, Q, B, O>) -> O>(
    held: Option<Held<O, B>>,
    outer: &mut Vec<(O, (usize, B)), A>,
    levels: &[Assoc],
    pair: Option<((usize, B), O)>,
    fold: &G,
) -> Option<Option<Held<O, B>>>
    requires fold { (x : Operation P Q B O) → G.pre fold.now x }
    requires nested { IfSome held (λ k. HasOutermost k.innermost outer.old.items) }
    ensures grown { IfSome result (λ new. BuiltFromBoth true (λ k p n. Pushed (groups_left levels.now) (λ c. c.0)
        (λ x c y z. G.post fold.now (Binary x c.1 y) z) (waiting k.innermost outer.old.items) k.value p.0 p.1 (waiting n.innermost outer.new.items) n.value
        × HasOutermost n.innermost outer.new.items) held pair new) }
    ensures full { result ≡ None → IsSome held × (vec_capacity outer.old ≤ vec_len outer.old) × (vec_capacity outer.new ≤ vec_len outer.new) }
{
    match (held, pair) {
        (Some(held), Some(pair)) => {
            let (operator, right) = pair;
            match put(held, outer, levels, operator, right, fold) {
                Some(new) => Some(Some(new)),
                None => None,
            }
        }
        _ => Some(None),
    }
}

/// Joins all operators that wait, and returns the value, if it is built.
#[inline(always)]
fn finished<P: Drop, Q: Drop, B: Drop, O: Drop, A: Allocator, G: Fn(Operation<P, Q, B, O>) -> O>(
    held: Option<Held<O, B>>,
    outer: Vec<(O, (usize, B)), A>,
    fold: &G,
) -> Option<O>
    requires fold { (x : Operation P Q B O) → G.pre fold.now x }
    requires nested { IfSome held (λ k. HasOutermost k.innermost outer.items) }
    ensures { BuiltFrom true (λ k y. Joined (λ x c y z. G.post fold.now (Binary x c.1 y) z) (λ _. Unit {0}) (waiting k.innermost outer.items) k.value [] y)
        held result }
{
    match held {
        Some(held) => Some(close_all(held, outer, fold)),
        None => None,
    }
}

/// Parses pairs until the operator or the term of one is refused, and returns the value of a first term and
/// them.
///
/// It returns `Stuck` if one is stuck.
pub fn pairs<
    OM: OutputMode,
    I: Input,
    A: Allocator + Copy,
    P: Parser<I, Error = F::Error>,
    F: Parser<I>,
    Q: Parser<I, Error = F::Error>,
    B: Drop,
    C: Parser<I, Output = (usize, B), Error = F::Error>,
    G: Fn(Operation<P::Output, Q::Output, B, F::Output>) -> F::Output,
>(
    alloc: A,
    levels: &[Assoc],
    prefix: &mut P,
    operand: &mut F,
    postfix: &mut Q,
    binary: &mut C,
    fold: &G,
    input: I,
    before: Option<F::Output>,
) -> PResult<I, Read<Option<F::Output>>, F::Error>
    requires prefix { (P.grammar (P.state prefix.old)).meaning.Runs }
    requires operand { (F.grammar (F.state operand.old)).meaning.Runs }
    requires postfix { (Q.grammar (Q.state postfix.old)).meaning.Runs }
    requires binary { (C.grammar (C.state binary.old)).meaning.Runs }
    requires fold { (x : Operation P.Output Q.Output B F.Output) → G.pre fold.now x }
    requires before { Built OM.Output.BUILDS (λ _. Unit {0}) before }
    ensures shown { ShowsRead I.model (pairs_by I.model (groups_left levels.now) (G.post fold.now) before (pair_by I.model F.Error.errors (length levels.now)
        (C.grammar (C.state binary.old)) (term_by I.model (P.grammar (P.state prefix.old)) (F.grammar (F.state operand.old))
        (Q.grammar (Q.state postfix.old)) (G.post fold.now)))) (modes OM.Output.BUILDS OM.Error.BUILDS OM.Incomplete.STREAMING) input result }
    ensures kept { AreKept (P.state prefix.new) (P.state prefix.old) (F.state operand.new) (F.state operand.old) (Q.state postfix.new) (Q.state postfix.old)
        (C.state binary.new) (C.state binary.old) }
{
    input.known();
    let mut rest = input;
    // The list stands apart from what is held, so that this stays in registers.
    let mut outer: Vec<(F::Output, (usize, B)), A> = Vec::new(alloc);
    let mut held = begun::<F::Output, B>(before);
    loop {
        match pair::<OutputM<OM::Output, Check, OM::Incomplete>, I, A, P, F, Q, B, C, G>(
            alloc, levels, prefix, operand, postfix, binary, fold, rest,
        ) {
            Ok((next, read)) => match emitted(read) {
                Read::Stuck => return Ok((next, Some(Read::Stuck))),
                Read::Whole(item) => {
                    if next.input_len() == rest.input_len() {
                        return Ok((next, Some(Read::Stuck)));
                    }
                    match grown(held, &mut outer, levels, item, fold) {
                        Some(new) => held = new,
                        None => return Err(Err::OutOfMemory),
                    }
                    rest = next;
                }
            },
            Err(Err::Error(_)) => {
                return Ok((rest, Some(Read::Whole(finished(held, outer, fold)))));
            }
            Err(Err::Failure(error)) => return Err(Err::Failure(error)),
            Err(Err::Incomplete(needed)) => return Err(Err::Incomplete(needed)),
            Err(Err::OutOfMemory) => return Err(Err::OutOfMemory),
        }
    }
}
