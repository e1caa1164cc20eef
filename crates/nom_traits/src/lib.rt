//! Inputs and items.
//!
//! Inputs are values whose models are lists of items. They can be cut and compared with tags. The other
//! modules cover items as characters, the classes of characters, the views that compare outputs, and numbers
//! as lengths.
#![tactic(auto)]

pub mod bits;
pub mod bytes;
pub mod character;
pub mod compare;
pub mod convert;
pub mod elements;
pub mod input;
mod lanes;
pub mod offset;
pub mod rests;
pub mod split;
pub mod text;
pub mod view;
