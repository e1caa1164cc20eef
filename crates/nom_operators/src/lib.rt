//! Operators: which of them wait for their right operand, and how they join their operands.
//!
//! `waiting` is for binary operators with levels, `pending` for operators before, after and between operands, each with
//! its precedence. For each of the two a separate rule defines the tree of an expression.
#![tactic(auto)]

pub mod operation;
pub mod pending;
pub mod precedences;
pub mod prefixes;
pub mod promises;
pub mod waiting;

pub use crate::operation::{Assoc, Operation};
pub use crate::precedences::{Binary, Unary};
