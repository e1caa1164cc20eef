//! nom for Rattle: streaming and complete parser combinators, proved.
//!
//! The public names have the paths of nom 8.0.0.
#![tactic(auto)]

pub mod bits;
pub mod branch;
pub mod bytes;
pub mod character;
pub mod combinator;
pub mod error;
pub mod extend;
mod growths;
pub mod laws;
pub mod multi;
pub mod number;
mod place;
pub mod promises;
pub mod recursion;
pub mod sequence;

pub use crate::place::position;
pub use nom_bits::convert::ErrorConvert;
pub use nom_bits::number::BitUint;
pub use nom_calls::answer::{answer, stream_answer};
pub use nom_calls::func::{Func, StreamFunc};
pub use nom_calls::func_in::{FuncIn, StreamFuncIn};
pub use nom_calls::function::{func, func_in, stream_func, stream_func_in};
pub use nom_calls::growing::{Grown, parse_growing};
pub use nom_calls::refused::if_refused;
pub use nom_error::answer::{Err, IResult, Needed, OutOfMemory, PResult};
pub use nom_error::finish::{Finish, FinishError};
pub use nom_error::mode::{
    Check, Complete, Emit, IsStreaming, Mode, OutputM, OutputMode, Streaming,
};
pub use nom_internal::and_then::AndThen;
pub use nom_internal::either::Or;
pub use nom_internal::flat_map::FlatMap;
pub use nom_internal::into::Into;
pub use nom_internal::judged::{MapOpt, MapRes};
pub use nom_internal::map::Map;
pub use nom_internal::parser::{Parser, StreamParser};
pub use nom_internal::sequence::And;
pub use nom_located::{Line, Located, line_of};
pub use nom_recursion::recursion::parse_in;
pub use nom_search::bytes::{AsBytes, ByteItems};
pub use nom_search::collection::{Collection, ViewedCollection};
pub use nom_search::extend::{Builder, ExtendInto};
pub use nom_search::substring::FindSubstring;
pub use nom_search::token::FindToken;
pub use nom_traits::character::{AsChar, AsciiClass, CodeSet};
pub use nom_traits::compare::{Compare, CompareResult};
pub use nom_traits::convert::ToUsize;
pub use nom_traits::input::{Input, Items, Value};
pub use nom_traits::offset::Offset;
pub use nom_traits::rests::{CountItems, CutRest};
pub use nom_traits::view::Viewed;
pub use nom_values::hex::HexDisplay;
pub use nom_values::parse::{ParseTo, ReadFromText};
pub use nom_values::range::NomRange;
pub use nom_values::saturating::SaturatingIterator;
