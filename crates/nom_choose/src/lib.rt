//! Tries in turn: of the branches of a list, and of a permutation's members in a round.
#![tactic(auto)]

pub mod choose;
pub mod slots;
