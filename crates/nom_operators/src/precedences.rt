//! Operators with their precedences.
ghost use Rattle.nom_operators.specs.OperatorViews.{binary_view, unary_view};

use crate::operation::Assoc;
use nom_traits::view::Viewed;

/// An operator before or after an operand. A lesser precedence binds tighter.
#[derive(Debug, Drop)]
pub struct Unary<V> {
    pub value: V,
    pub precedence: usize,
}

/// An operator between two operands. A lesser precedence binds tighter, and `assoc` says how it is grouped beside
/// others of the same precedence.
#[derive(Debug, Drop)]
pub struct Binary<V> {
    pub value: V,
    pub precedence: usize,
    pub assoc: Assoc,
}

impl<V: Viewed> Viewed for Unary<V> {
    ghost view = { unary_view V.view };
}

impl<V: Viewed> Viewed for Binary<V> {
    ghost view = { binary_view V.view };
}
