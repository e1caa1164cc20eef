//! Operator precedence: terms with operators between them, by levels.
//!
//! It builds on `nom`, as a user's crate would, and on the trees of operators.
#![tactic(auto)]

ghost use Rattle.std.specs.Prelude.{◌≡◌};

pub mod expression;
pub mod pairs;
pub mod prefixes;
pub mod read;
pub mod term;

pub use crate::expression::Precedence;
pub use nom_operators::operation::{Assoc, Operation};
pub use nom_operators::{operation, promises};
use std::marker::PhantomData;

/// Parses an expression, and returns the value that `fold` makes of its tree.
///
/// An expression is a term, and then pairs of a binary operator and a term. A term is any number of prefixes,
/// an operand, and any number of postfixes. Use `fail` for prefixes, postfixes or operators that don't exist.
///
/// `binary` returns an operator with its level. Entry k of `levels` says how operators of level k are
/// grouped. A greater level binds looser. Postfixes bind tightest, from left to right. Prefixes come next,
/// the nearest to the operand first, and then binary operators. The root of the tree is the last binary
/// operator of the loosest level for `Left`, and the first one for `Right`. Both sides are trees in the same
/// way.
///
/// A term is refused if its operand is. For the first term, `append` adds `Precedence` at the start. If an
/// operator or the term after it is refused, the expression ends before that operator. A level outside
/// `levels` is a failure with `Precedence` at the operator. A prefix or a postfix that consumes nothing is
/// refused with `Precedence` at its place. An operator and its term that together consume nothing are refused
/// with `Precedence` at the operator.
///
/// If outputs aren't built, `fold` isn't called, nothing grows, and only the outputs of `binary` are built.
/// Otherwise memory may run out for kept prefixes or operators that wait for what follows them. The program's
/// stack is bounded, whatever the input.
pub fn precedence<'l, A, P, F, Q, C, B, G>(
    alloc: A,
    levels: &'l [Assoc],
    prefix: P,
    operand: F,
    postfix: Q,
    binary: C,
    fold: G,
) -> Precedence<'l, A, P, F, Q, C, B, G>
    ensures levels { result.levels ≡ levels.entry }
    ensures prefix { result.prefix ≡ prefix }
    ensures operand { result.operand ≡ operand }
    ensures postfix { result.postfix ≡ postfix }
    ensures binary { result.binary ≡ binary }
    ensures fold { result.fold ≡ fold }
{
    Precedence {
        alloc,
        levels,
        prefix,
        operand,
        postfix,
        binary,
        fold,
        of: PhantomData,
    }
}
