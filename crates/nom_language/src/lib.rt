//! Operator precedence, where each operator has its own precedence, as in nom-language.
//!
//! The value of an expression is the one that a fold makes of its tree. The precedences allow exactly one tree.
//! A fold may refuse.
#![tactic(auto)]

pub mod allocating;
pub mod evaluation;
pub mod expression;
pub mod left;
pub mod operands;
pub mod operator;
pub mod precedence;
pub mod prefixes;
