//! Operators that wait for their right side, and the values that they join.
ghost use Rattle.std.specs.Prelude.{◌≡◌, ◌<◌, ◌≤◌, ℕ, [], IfSome, IsTrue, None, false, true, length, reverse, vec_len, vec_capacity};
ghost use Rattle.nom_operators.specs.Closes.{Closes, GoesUnder, UnderInnermost};
ghost use Rattle.nom_operators.specs.Groups.{groups_left};
ghost use Rattle.nom_operators.specs.Steps.{HasOutermost, Joined, Pushed, waiting};
ghost use Rattle.nom_operators.specs.declared.operation.Operation.{Operation};
ghost use Rattle.nom_operators.specs.declared.operation.Operation.TheVariants.{Binary};
ghost use Rattle.nom_repeat.specs.Lists.{ListLacksRoom};

use crate::operation::{Assoc, Operation};
use core::mem::replace_with;
use std::alloc::Allocator;

/// The value read after the innermost operator that waits; and that operator with its left operand and its level, if
/// any waits. The operators outside it are in a list, the next one last.
#[derive(Drop)]
pub struct Held<O, B> {
    pub value: O,
    pub innermost: Option<(O, (usize, B))>,
}

/// Adds an operator with its level, and the value of the term after it: joins what ends before it, and lets it wait.
/// Returns None if there is no memory for the operator outside it.
#[inline(always)]
pub fn put<P: Drop, Q: Drop, B: Drop, O: Drop, A: Allocator, G: Fn(Operation<P, Q, B, O>) -> O>(
    held: Held<O, B>,
    outer: &mut Vec<(O, (usize, B)), A>,
    levels: &[Assoc],
    operator: (usize, B),
    right: O,
    fold: &G,
) -> Option<Held<O, B>>
    requires fold { (x : Operation P Q B O) → G.pre fold.now x }
    requires nested { HasOutermost held.innermost outer.old.items }
    ensures pushed { IfSome result (λ new. Pushed (groups_left levels.now) (λ c. c.0) (λ x c y z. G.post fold.now (Binary x c.1 y) z)
        (waiting held.innermost outer.old.items) held.value operator right (waiting new.innermost outer.new.items) new.value) }
    ensures nested { IfSome result (λ new. HasOutermost new.innermost outer.new.items) }
    ensures full { result ≡ None → ListLacksRoom outer.old outer.new }
{
    let Held { value, innermost } = held;
    let (left, under) = close(innermost, outer, value, levels, operator.0, fold);
    if keep(outer, under) {
        Some(Held {
            value: right,
            innermost: Some((left, operator)),
        })
    } else {
        None
    }
}

/// Joins all operators that wait, and returns the value.
#[inline(always)]
pub fn close_all<
    P: Drop,
    Q: Drop,
    B: Drop,
    O: Drop,
    A: Allocator,
    G: Fn(Operation<P, Q, B, O>) -> O,
>(held: Held<O, B>, mut outer: Vec<(O, (usize, B)), A>, fold: &G) -> O
    requires fold { (x : Operation P Q B O) → G.pre fold.now x }
    requires nested { HasOutermost held.innermost outer.items }
    ensures { Joined (λ x c y z. G.post fold.now (Binary x c.1 y) z) (λ _. Unit {0}) (waiting held.innermost outer.items) held.value [] result }
{
    let Held { value, innermost } = held;
    let mut value = value;
    let mut innermost = innermost;
    while let Some(open) = innermost {
        value = join(fold, open, value);
        innermost = next(&mut outer);
    }
    value
}

/// Joins what an operator of a level closes. Returns the value joined last and the innermost operator left.
#[inline(always)]
fn close<P: Drop, Q: Drop, B: Drop, O: Drop, A: Allocator, G: Fn(Operation<P, Q, B, O>) -> O>(
    innermost: Option<(O, (usize, B))>,
    outer: &mut Vec<(O, (usize, B)), A>,
    value: O,
    levels: &[Assoc],
    level: usize,
    fold: &G,
) -> (O, Option<(O, (usize, B))>)
    requires fold { (x : Operation P Q B O) → G.pre fold.now x }
    requires nested { HasOutermost innermost outer.old.items }
    ensures joined { Joined (λ x c y z. G.post fold.now (Binary x c.1 y) z) (λ c. Closes (groups_left levels.now) level c.0)
        (waiting innermost outer.old.items) value (waiting result.1 outer.new.items) result.0 }
    ensures under { UnderInnermost (groups_left levels.now) (λ c. c.0) level (waiting result.1 outer.new.items) }
    ensures nested { HasOutermost result.1 outer.new.items }
    ensures room { (vec_capacity outer.new ≡ vec_capacity outer.old) × (vec_len outer.new ≤ vec_len outer.old) }
{
    let mut value = value;
    let mut innermost = innermost;
    while let Some(open) = innermost {
        if !closes(levels, level, open.1.0) {
            return (value, Some(open));
        }
        value = join(fold, open, value);
        innermost = next(outer);
    }
    (value, None)
}

/// Takes the innermost operator of a list.
#[inline(always)]
pub fn next<E: Drop, A: Allocator>(outer: &mut Vec<E, A>) -> Option<E>
    ensures next { reverse outer.old.items ≡ waiting result outer.new.items }
    ensures nested { HasOutermost result outer.new.items }
    ensures room { (vec_capacity outer.new ≡ vec_capacity outer.old) × (vec_len outer.new ≤ vec_len outer.old) }
{
    match outer.pop() {
        Some(next) => Some(next),
        None => None,
    }
}

/// Pushes the operator that was the innermost, if any, and returns whether there was memory for it.
#[inline(always)]
pub fn keep<E: Drop, A: Allocator>(outer: &mut Vec<E, A>, innermost: Option<E>) -> bool
    ensures kept { IsTrue result → reverse outer.new.items ≡ waiting innermost outer.old.items }
    ensures full { result ≡ false → ListLacksRoom outer.old outer.new }
    ensures lacks { result ≡ false → vec_capacity outer.new < length (waiting innermost outer.old.items) }
{
    match innermost {
        Some(open) => {
            // The list is moved out and back. If it were passed by reference, all that stands beside it would lie in memory.
            if outer.capacity() <= outer.len() {
                if !replace_with(outer, (), larger) {
                    return false;
                }
            }
            outer.push_reserved(open);
            true
        }
        None => true,
    }
}

/// Makes room for another operator in a full list, and returns whether there was memory for it.
#[cold]
#[inline(never)]
fn larger<E, A: Allocator>(list: Vec<E, A>, _x: ()) -> (Vec<E, A>, bool)
    ensures items { result.0.items ≡ list.items }
    ensures room { IsTrue result.1 → vec_len result.0 < vec_capacity result.0 }
    ensures lacks { result.1 ≡ false → vec_capacity list ≤ vec_len list → vec_capacity result.0 ≤ vec_len result.0 }
{
    let mut list = list;
    let has_room = match list.reserve(1) {
        Ok(()) => true,
        Err(_) => false,
    };
    (list, has_room)
}

/// Returns whether operators of a level are grouped from the left.
#[inline(always)]
fn is_left(levels: &[Assoc], level: usize) -> bool
    ensures { result ≡ groups_left levels.now level }
{
    match levels.get(level) {
        Some(Assoc::Left) => true,
        Some(Assoc::Right) => false,
        None => true,
    }
}

/// Returns whether an operator of a level ends the right side of one of the level `innermost`.
#[inline(always)]
fn closes(levels: &[Assoc], level: usize, innermost: usize) -> bool
    ensures closes { IsTrue result → Closes (groups_left levels.now) level innermost }
    ensures under { result ≡ false → GoesUnder (groups_left levels.now) level innermost }
{
    innermost < level || (innermost == level && is_left(levels, level))
}

/// Applies the fold to an operator, the value on its left and the value on its right.
#[inline(always)]
fn join<P: Drop, Q: Drop, B: Drop, O: Drop, G: Fn(Operation<P, Q, B, O>) -> O>(
    fold: &G,
    last: (O, (usize, B)),
    right: O,
) -> O
    requires { (x : Operation P Q B O) → G.pre fold.now x }
    ensures { G.post fold.now (Binary last.0 last.1.1 right) result }
{
    let (left, own) = last;
    let (_level, operator) = own;
    fold(Operation::Binary(left, operator, right))
}
