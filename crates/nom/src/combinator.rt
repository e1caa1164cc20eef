//! Parsers that change the outcome or the output of a part, and parsers that consume nothing or everything.

pub use nom_calls::{ParserIterator, State, iterator};
pub use nom_combinator::{
    AllConsuming, Cond, Consumed, Cut, Fail, MakeComplete, MapAlloc, Not, Opt, Peek, Recognize,
    Success, Value, ValueAlloc, Verify, all_consuming, complete, cond, consumed, cut, eof, fail,
    flat_map, into, map, map_alloc, map_opt, map_parser, map_res, not, opt, peek, recognize, rest,
    rest_len, success, value, value_alloc, verify,
};
