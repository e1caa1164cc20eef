//! The functions of the tutorial, in its order.
#![tactic(auto)]

pub mod contract;
pub mod line;
pub mod report;
pub mod stream;
pub mod typed;
