//! Rows of inputs.

use nom::{HexDisplay, Input, Needed};
use std::alloc::Global;

/// `b"abc".to_hex(8)`: `00000000`, tab, `61 62 63 `, fifteen spaces, tab, `abc`, newline.
pub fn row_20(alloc: Global) -> bool {
    match b"abc".as_slice().to_hex(alloc, 8) {
        Ok(dump) => dump.as_str() == "00000000\t61 62 63                \tabc\n",
        Err(_) => false,
    }
}

/// `"a¡€💢€¡a".slice_index`: of 4 `Ok(10)`, of 7 `Ok(16)`, of 8 `Err(Unknown)`.
pub fn row_21() -> bool {
    let text = "a¡€💢€¡a";
    text.slice_index(4) == Ok(10)
        && text.slice_index(7) == Ok(16)
        && text.slice_index(8) == Err(Needed::Unknown)
}
