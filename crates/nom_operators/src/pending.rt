//! Operators before, after and between operands, each with its precedence: which of them wait for their right operand,
//! and how they join their operands. If the fold refuses, its error takes the place of the value.
ghost use Rattle.std.specs.Prelude.{◌≡◌, ◌+◌, ◌<◌, ◌≤◌, ◌∷◌, ◌++◌, IfSome, None, [], List, length, map, vec_capacity};
ghost use Rattle.nom_operators.specs.Evaluations.{IsValueOf, PostfixGives, term_symbols};
ghost use Rattle.nom_operators.specs.Groups.{is_left};
ghost use Rattle.nom_operators.specs.OperatorTrees.{Symbol, ends_operand};
ghost use Rattle.nom_operators.specs.OperatorTrees.Symbol.{OfBinary, OfOperand, OfPostfix};
ghost use Rattle.nom_operators.specs.helpers.Pending.{EndsNone, HasRead, IsEnding, StackLacksRoom, PendingGives, WaitsBefore, level_of_pending, with_prefixes};
ghost use Rattle.nom_operators.specs.Prefixes.{prefixes_in};
ghost use Rattle.nom_operators.specs.Steps.{HasOutermost, waiting};
ghost use Rattle.nom_operators.specs.declared.operation.Operation.{Operation};
ghost use Rattle.nom_operators.specs.declared.precedences.Unary.{Unary};
ghost use Rattle.nom_operators.specs.declared.precedences.Binary.{Binary};

use crate::operation::{Assoc, Operation};
use crate::precedences::{Binary, Unary};
use crate::prefixes::Prefixes;
use crate::waiting::{keep, next};
use std::alloc::Allocator;

/// An operator that waits for its right operand: a prefix, or a binary one with the value on its left.
#[derive(Drop)]
pub enum Pending<P, B, R> {
    Prefix(Unary<P>),
    Left(R, Binary<B>),
}

/// The value read after the innermost operator that waits, and that operator, if any. The operators outside it are in
/// a list, the next one last.
#[derive(Drop)]
pub struct Partial<P, B, R> {
    pub value: R,
    pub innermost: Option<Pending<P, B, R>>,
}

/// A term: prefixes, an operand, and postfixes.
#[derive(Drop)]
pub struct Term<P, O, Q, A: Allocator> {
    pub prefixes: Prefixes<Unary<P>, A>,
    pub operand: O,
    pub postfixes: Vec<Unary<Q>, A>,
}

/// Starts with a term. Returns None if there is no memory for its prefixes. The last of them needs none.
#[inline(always)]
pub fn begin<
    P: Drop,
    Q: Drop,
    B: Drop,
    O: Drop,
    X: Drop,
    A: Allocator,
    G: Fn(Operation<P, Q, B, O>) -> Result<O, X>,
>(
    outer: &mut Vec<Pending<P, B, Result<O, X>>, A>,
    term: Term<P, O, Q, A>,
    fold: &G,
) -> Option<Partial<P, B, Result<O, X>>>
    requires fold { (x : Operation P Q B O) → G.pre fold.now x }
    requires empty { outer.old.items ≡ [] }
    ensures read { IfSome result (λ r. HasRead (G.post fold.now) (term_symbols (prefixes_in term.prefixes) term.operand term.postfixes.items)
        (waiting r.innermost outer.new.items) r.value) }
    ensures nested { IfSome result (λ r. HasOutermost r.innermost outer.new.items) }
    ensures full { result ≡ None → StackLacksRoom (vec_capacity outer.new) (length (prefixes_in term.prefixes)) }
{
    read_term(None, outer, term, fold)
}

/// Adds a binary operator and a term: folds the operands that it ends, and lets it wait. Returns None if there is no
/// memory for all that wait then. The innermost of them needs none.
#[inline(always)]
pub fn put_term<
    P: Drop,
    Q: Drop,
    B: Drop,
    O: Drop,
    X: Drop,
    A: Allocator,
    G: Fn(Operation<P, Q, B, O>) -> Result<O, X>,
>(
    partial: Partial<P, B, Result<O, X>>,
    outer: &mut Vec<Pending<P, B, Result<O, X>>, A>,
    operator: Binary<B>,
    term: Term<P, O, Q, A>,
    fold: &G,
) -> Option<Partial<P, B, Result<O, X>>>
    requires fold { (x : Operation P Q B O) → G.pre fold.now x }
    requires nested { HasOutermost partial.innermost outer.old.items }
    ensures read { IfSome result (λ r. (ss : List (Symbol (Unary P) O (Unary Q) (Binary B))) →
        HasRead (G.post fold.now) ss (waiting partial.innermost outer.old.items) partial.value →
        HasRead (G.post fold.now) (ss ++ OfBinary operator ∷ term_symbols (prefixes_in term.prefixes) term.operand term.postfixes.items)
        (waiting r.innermost outer.new.items) r.value) }
    ensures nested { IfSome result (λ r. HasOutermost r.innermost outer.new.items) }
    ensures full { result ≡ None → StackLacksRoom (vec_capacity outer.new)
        (length (waiting partial.innermost outer.old.items) + (1 + length (prefixes_in term.prefixes))) }
{
    let Partial { value, innermost } = partial;
    let (left, under) = end_operands(
        innermost,
        outer,
        value,
        operator.precedence,
        from_left(operator.assoc),
        fold,
    );
    if keep(outer, under) {
        read_term(Some(Pending::Left(left, operator)), outer, term, fold)
    } else {
        None
    }
}

/// Returns the value of everything read, or the first refusal of the fold.
#[inline(always)]
pub fn value_of_all<
    P: Drop,
    Q: Drop,
    B: Drop,
    O: Drop,
    X: Drop,
    A: Allocator,
    G: Fn(Operation<P, Q, B, O>) -> Result<O, X>,
>(
    partial: Partial<P, B, Result<O, X>>,
    mut outer: Vec<Pending<P, B, Result<O, X>>, A>,
    fold: &G,
) -> Result<O, X>
    requires fold { (x : Operation P Q B O) → G.pre fold.now x }
    requires nested { HasOutermost partial.innermost outer.items }
    ensures { (ss : List (Symbol (Unary P) O (Unary Q) (Binary B))) →
        HasRead (G.post fold.now) ss (waiting partial.innermost outer.items) partial.value → IsValueOf (G.post fold.now) ss result }
{
    let Partial { value, innermost } = partial;
    let mut value = value;
    let mut innermost = innermost;
    while let Some(pending) = innermost {
        value = fold_pending(fold, pending, value);
        innermost = next(&mut outer);
    }
    value
}

/// Adds a term: its prefixes wait too, and its postfixes end the operands before them.
#[inline(always)]
fn read_term<
    P: Drop,
    Q: Drop,
    B: Drop,
    O: Drop,
    X: Drop,
    A: Allocator,
    G: Fn(Operation<P, Q, B, O>) -> Result<O, X>,
>(
    innermost: Option<Pending<P, B, Result<O, X>>>,
    outer: &mut Vec<Pending<P, B, Result<O, X>>, A>,
    term: Term<P, O, Q, A>,
    fold: &G,
) -> Option<Partial<P, B, Result<O, X>>>
    requires fold { (x : Operation P Q B O) → G.pre fold.now x }
    requires nested { HasOutermost innermost outer.old.items }
    ensures read { IfSome result (λ r. (ss : List (Symbol (Unary P) O (Unary Q) (Binary B))) →
        WaitsBefore (G.post fold.now) ss (waiting innermost outer.old.items) →
        HasRead (G.post fold.now) (ss ++ term_symbols (prefixes_in term.prefixes) term.operand term.postfixes.items)
        (waiting r.innermost outer.new.items) r.value) }
    ensures nested { IfSome result (λ r. HasOutermost r.innermost outer.new.items) }
    ensures full { result ≡ None → StackLacksRoom (vec_capacity outer.new)
        (length (waiting innermost outer.old.items) + length (prefixes_in term.prefixes)) }
{
    let Term {
        prefixes,
        operand,
        postfixes,
    } = term;
    match wait_all(innermost, outer, prefixes) {
        Some(inner) => Some(apply_all(inner, outer, operand, postfixes, fold)),
        None => None,
    }
}

/// Adds prefixes that wait, in order, and returns the innermost operator. Returns None if there is no memory.
#[inline(always)]
fn wait_all<P: Drop, B: Drop, R: Drop, A: Allocator>(
    innermost: Option<Pending<P, B, R>>,
    outer: &mut Vec<Pending<P, B, R>, A>,
    prefixes: Prefixes<Unary<P>, A>,
) -> Option<Option<Pending<P, B, R>>>
    requires nested { HasOutermost innermost outer.old.items }
    ensures waiting { IfSome result (λ new. waiting new outer.new.items ≡ with_prefixes (prefixes_in prefixes) (waiting innermost outer.old.items)) }
    ensures nested { IfSome result (λ new. HasOutermost new outer.new.items) }
    ensures full { result ≡ None → StackLacksRoom (vec_capacity outer.new)
        (length (waiting innermost outer.old.items) + length (prefixes_in prefixes)) }
{
    let Prefixes { first, more } = prefixes;
    match first {
        Some(prefix) => {
            if keep(outer, innermost) {
                wait_list(Some(Pending::Prefix(prefix)), outer, more)
            } else {
                None
            }
        }
        None => wait_list(innermost, outer, more),
    }
}

/// Adds the prefixes of a list, as `wait_all` does.
#[inline(always)]
fn wait_list<P: Drop, B: Drop, R: Drop, A: Allocator>(
    innermost: Option<Pending<P, B, R>>,
    outer: &mut Vec<Pending<P, B, R>, A>,
    prefixes: Vec<Unary<P>, A>,
) -> Option<Option<Pending<P, B, R>>>
    requires nested { HasOutermost innermost outer.old.items }
    ensures waiting { IfSome result (λ new. waiting new outer.new.items ≡ with_prefixes prefixes.items (waiting innermost outer.old.items)) }
    ensures nested { IfSome result (λ new. HasOutermost new outer.new.items) }
    ensures full { result ≡ None → StackLacksRoom (vec_capacity outer.new)
        (length (waiting innermost outer.old.items) + length prefixes.items) }
{
    let mut inner = innermost;
    let mut prefixes = prefixes;
    prefixes.reverse();
    while let Some(prefix) = prefixes.pop() {
        if !keep(outer, inner) {
            return None;
        }
        inner = Some(Pending::Prefix(prefix));
    }
    Some(inner)
}

/// Adds an operand and postfixes. Each postfix ends operands before it and is applied to them.
#[inline(always)]
fn apply_all<
    P: Drop,
    Q: Drop,
    B: Drop,
    O: Drop,
    X: Drop,
    A: Allocator,
    G: Fn(Operation<P, Q, B, O>) -> Result<O, X>,
>(
    innermost: Option<Pending<P, B, Result<O, X>>>,
    outer: &mut Vec<Pending<P, B, Result<O, X>>, A>,
    operand: O,
    postfixes: Vec<Unary<Q>, A>,
    fold: &G,
) -> Partial<P, B, Result<O, X>>
    requires fold { (x : Operation P Q B O) → G.pre fold.now x }
    requires nested { HasOutermost innermost outer.old.items }
    ensures read { (ss : List (Symbol (Unary P) O (Unary Q) (Binary B))) →
        WaitsBefore (G.post fold.now) ss (waiting innermost outer.old.items) →
        HasRead (G.post fold.now) (ss ++ OfOperand operand ∷ map OfPostfix postfixes.items) (waiting result.innermost outer.new.items) result.value }
    ensures nested { HasOutermost result.innermost outer.new.items }
{
    let mut value = Ok(operand);
    let mut inner = innermost;
    let mut postfixes = postfixes;
    postfixes.reverse();
    while let Some(postfix) = postfixes.pop() {
        let (applied, under) = apply(inner, outer, value, postfix, fold);
        value = applied;
        inner = under;
    }
    Partial {
        value,
        innermost: inner,
    }
}

/// Adds a postfix: folds the operands that it ends, and applies it. Returns the result and the innermost operator left.
#[inline(always)]
fn apply<
    P: Drop,
    Q: Drop,
    B: Drop,
    O: Drop,
    X: Drop,
    A: Allocator,
    G: Fn(Operation<P, Q, B, O>) -> Result<O, X>,
>(
    innermost: Option<Pending<P, B, Result<O, X>>>,
    outer: &mut Vec<Pending<P, B, Result<O, X>>, A>,
    value: Result<O, X>,
    postfix: Unary<Q>,
    fold: &G,
) -> (Result<O, X>, Option<Pending<P, B, Result<O, X>>>)
    requires fold { (x : Operation P Q B O) → G.pre fold.now x }
    requires nested { HasOutermost innermost outer.old.items }
    ensures read { (ss : List (Symbol (Unary P) O (Unary Q) (Binary B))) →
        HasRead (G.post fold.now) ss (waiting innermost outer.old.items) value →
        HasRead (G.post fold.now) (ss ++ OfPostfix postfix ∷ []) (waiting result.1 outer.new.items) result.0 }
    ensures nested { HasOutermost result.1 outer.new.items }
{
    let (operand, under) = end_operands(innermost, outer, value, postfix.precedence, true, fold);
    (fold_postfix(fold, operand, postfix), under)
}

/// Folds the operands that an operator ends. Returns the result and the innermost operator left.
#[inline(always)]
fn end_operands<
    P: Drop,
    Q: Drop,
    B: Drop,
    O: Drop,
    X: Drop,
    A: Allocator,
    G: Fn(Operation<P, Q, B, O>) -> Result<O, X>,
>(
    innermost: Option<Pending<P, B, Result<O, X>>>,
    outer: &mut Vec<Pending<P, B, Result<O, X>>, A>,
    value: Result<O, X>,
    precedence: usize,
    from_left: bool,
    fold: &G,
) -> (Result<O, X>, Option<Pending<P, B, Result<O, X>>>)
    requires fold { (x : Operation P Q B O) → G.pre fold.now x }
    requires nested { HasOutermost innermost outer.old.items }
    ensures ended { (ss : List (Symbol (Unary P) O (Unary Q) (Binary B))) →
        IsEnding (G.post fold.now) precedence from_left ss (waiting innermost outer.old.items) value →
        IsEnding (G.post fold.now) precedence from_left ss (waiting result.1 outer.new.items) result.0 }
    ensures none { EndsNone (waiting result.1 outer.new.items) precedence from_left }
    ensures nested { HasOutermost result.1 outer.new.items }
    ensures fewer { length (waiting result.1 outer.new.items) ≤ length (waiting innermost outer.old.items) }
{
    let mut value = value;
    let mut innermost = innermost;
    while let Some(pending) = innermost {
        if !ends(&pending, precedence, from_left) {
            return (value, Some(pending));
        }
        value = fold_pending(fold, pending, value);
        innermost = next(outer);
    }
    (value, None)
}

/// Returns whether an operator is grouped from the left.
#[inline(always)]
fn from_left(assoc: Assoc) -> bool
    ensures { result ≡ is_left assoc }
{
    match assoc {
        Assoc::Left => true,
        Assoc::Right => false,
    }
}

/// Returns whether an operator ends the right operand of one that waits.
#[inline(always)]
fn ends<P, B, R>(pending: &Pending<P, B, R>, precedence: usize, from_left: bool) -> bool
    ensures { result ≡ ends_operand precedence from_left (level_of_pending pending.now) }
{
    let level = level_of(pending);
    if from_left {
        level <= precedence
    } else {
        level < precedence
    }
}

/// Returns the precedence of an operator that waits.
#[inline(always)]
fn level_of<P, B, R>(pending: &Pending<P, B, R>) -> usize
    ensures { result ≡ level_of_pending pending.now }
{
    match pending {
        Pending::Prefix(prefix) => prefix.precedence,
        Pending::Left(_, operator) => operator.precedence,
    }
}

/// Applies an operator that waits to the value on its right. A refusal stays, that of its left operand first.
#[inline(always)]
fn fold_pending<
    P: Drop,
    Q: Drop,
    B: Drop,
    O: Drop,
    X: Drop,
    G: Fn(Operation<P, Q, B, O>) -> Result<O, X>,
>(fold: &G, pending: Pending<P, B, Result<O, X>>, right: Result<O, X>) -> Result<O, X>
    requires { (x : Operation P Q B O) → G.pre fold.now x }
    ensures { PendingGives (G.post fold.now) pending right result }
{
    let operation = match pending {
        Pending::Prefix(prefix) => Operation::Prefix(prefix.value, right?),
        Pending::Left(left, operator) => Operation::Binary(left?, operator.value, right?),
    };
    fold(operation)
}

/// Applies a postfix to the value before it. A refusal stays.
#[inline(always)]
fn fold_postfix<
    P: Drop,
    Q: Drop,
    B: Drop,
    O: Drop,
    X: Drop,
    G: Fn(Operation<P, Q, B, O>) -> Result<O, X>,
>(fold: &G, operand: Result<O, X>, postfix: Unary<Q>) -> Result<O, X>
    requires { (x : Operation P Q B O) → G.pre fold.now x }
    ensures { PostfixGives (G.post fold.now) operand postfix result }
{
    match operand {
        Ok(value) => fold(Operation::Postfix(value, postfix.value)),
        Err(refused) => Err(refused),
    }
}
