//! Operator precedence.
ghost use Rattle.std.specs.Prelude.{◌≡◌};

pub use crate::allocating::FoldError;
use crate::expression::{Expression, ExpressionAlloc};
use crate::left::LeftAssoc;
use crate::operator::{BinaryOp, UnaryOp};
use crate::prefixes::PrefixList;
use nom_multi::{Many0, many0};
pub use nom_operators::operation::{Assoc, Operation};
pub use nom_operators::precedences::{Binary, Unary};
use std::alloc::Allocator;
use std::marker::PhantomData;

/// Gives a prefix or a postfix its precedence.
///
/// A lower precedence binds tighter.
#[inline(always)]
pub fn unary_op<F>(precedence: usize, parser: F) -> UnaryOp<F>
    ensures precedence { result.precedence ≡ precedence }
    ensures parser { result.parser ≡ parser }
{
    UnaryOp { precedence, parser }
}

/// Gives a binary operator its precedence and its associativity.
///
/// A lower precedence binds tighter. The associativity says how operators of that precedence are grouped.
#[inline(always)]
pub fn binary_op<F>(precedence: usize, assoc: Assoc, parser: F) -> BinaryOp<F>
    ensures precedence { result.precedence ≡ precedence }
    ensures assoc { result.assoc ≡ assoc }
    ensures parser { result.parser ≡ parser }
{
    BinaryOp {
        precedence,
        assoc,
        parser,
    }
}

/// Parses an expression, and returns the value that `fold` makes of its tree.
///
/// An expression is a term, and then pairs of a binary operator and a term. A term is any number of prefixes,
/// an operand, and any number of postfixes. Use `fail` for prefixes, postfixes or operators that don't exist.
/// Make prefixes and postfixes by `unary_op`, and operators by `binary_op`.
///
/// An operator's left operand is everything before it that binds tighter, or equally tight if it is grouped
/// from the left. Its right operand reaches to the next operator that doesn't bind tighter. So the loosest
/// operator is the root. A prefix takes nothing before it and ends nothing: if `not` is looser than `+`, then
/// `a * not b + c` is `a * (not (b + c))`. A postfix ends the same operands as an operator that is grouped
/// from the left. Postfixes in a row are applied in their order.
///
/// `fold` returns the value of an operation, or refuses it. Then the expression is refused at its start, and
/// `from_external_error` makes the error of the fold's error and `Precedence`. `fold` is called in every mode,
/// in the order in which operations are applied. After its first refusal the rest of the expression is still
/// read.
///
/// If the first term is refused, `append` adds `Precedence` at the start. If an operator or the term after it
/// is refused, the expression ends before that operator. An operator and its term that together consume
/// nothing are refused with `Precedence`. A prefix or a postfix that consumes nothing is refused with `Many0`.
///
/// Memory may run out for the lists of prefixes and postfixes, and for operators that wait for their right
/// operand. An operator that waits before a prefix takes some. The program's stack is bounded, whatever the input.
#[inline(always)]
pub fn precedence<A: Allocator + Copy, P, Q, C, F, G>(
    alloc: A,
    prefix: P,
    postfix: Q,
    binary: C,
    operand: F,
    fold: G,
) -> Expression<A, C, (PrefixList<A, P>, F, Many0<A, Q>), G>
    ensures prefix { result.pair.1.0.parser ≡ prefix }
    ensures operand { result.pair.1.1 ≡ operand }
    ensures postfix { result.pair.1.2.parser ≡ postfix }
    ensures binary { result.pair.0 ≡ binary }
    ensures fold { result.fold ≡ fold }
{
    let prefixes = PrefixList {
        alloc,
        parser: prefix,
    };
    let term = (prefixes, operand, many0(alloc, postfix));
    Expression {
        alloc,
        pair: (binary, term),
        fold,
        of: PhantomData,
    }
}

/// Parses an expression as `precedence` does, with a fold that may take memory, for example for a tree of
/// `Box`es.
///
/// The fold returns a value, refuses by `FoldError::Refused`, or returns `FoldError::OutOfMemory`. The last one
/// makes the answer `OutOfMemory`, which isn't a refusal. `?` converts the errors of `Box::new` and of `push` of
/// a `Vec` to it.
#[inline(always)]
pub fn precedence_alloc<A: Allocator + Copy, P, Q, C, F, G>(
    alloc: A,
    prefix: P,
    postfix: Q,
    binary: C,
    operand: F,
    fold: G,
) -> ExpressionAlloc<A, C, (PrefixList<A, P>, F, Many0<A, Q>), G>
    ensures prefix { result.pair.1.0.parser ≡ prefix }
    ensures operand { result.pair.1.1 ≡ operand }
    ensures postfix { result.pair.1.2.parser ≡ postfix }
    ensures binary { result.pair.0 ≡ binary }
    ensures fold { result.fold ≡ fold }
{
    let prefixes = PrefixList {
        alloc,
        parser: prefix,
    };
    let term = (prefixes, operand, many0(alloc, postfix));
    Expression {
        alloc,
        pair: (binary, term),
        fold,
        of: PhantomData,
    }
}

/// Parses items with operators between them, and folds them from the left.
///
/// It runs `child`, and then `operator` and `child` as long as both accept. `builder` returns the value of what
/// stands on the left, an operator and an item.
///
/// If the first item is refused, so is the whole. If an operator or the item after it is refused, the whole ends
/// before that operator. An operator and its item that together consume nothing are refused with
/// `SeparatedList`.
#[inline(always)]
pub fn left_assoc<F, C, G>(child: F, operator: C, builder: G) -> LeftAssoc<C, F, G>
    ensures child { result.pair.1 ≡ child }
    ensures operator { result.pair.0 ≡ operator }
    ensures builder { result.builder ≡ builder }
{
    LeftAssoc {
        pair: (operator, child),
        builder,
    }
}
