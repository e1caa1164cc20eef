//! Texts with escapes.
#![tactic(auto)]

ghost use Rattle.std.specs.Prelude.{◌≡◌};

pub mod complete;
pub mod next_piece;
mod raw;
pub mod streaming;
mod transform;

pub use crate::raw::Escaped;
pub use crate::transform::EscapedTransform;
use std::alloc::Allocator;

/// Matches a text with escapes, and returns it as it appears in the input, escapes included.
///
/// The text consists of normal pieces, and of escapable pieces that each follow the control character.
///
/// While items are left, `normal` is tried first. If it accepts without consuming input, the text ends. If it
/// refuses, the control character and `escapable` are tried. Any other item ends the text. If it is the first
/// item, the parser refuses with `Escaped` at the start instead. A refusal of `escapable` is passed on.
///
/// If the control character is the last item, streaming needs 1, and complete refuses with `Escaped` at the
/// start. If no item is left, complete accepts the whole input. Streaming needs more, since more pieces may
/// come.
#[inline(always)]
pub fn escaped<F, G>(normal: F, control_char: char, escapable: G) -> Escaped<F, G>
    ensures normal { result.normal ≡ normal }
    ensures control_char { result.control_char ≡ control_char }
    ensures escapable { result.escapable ≡ escapable }
{
    Escaped {
        normal,
        control_char,
        escapable,
    }
}

/// Matches a text with escapes, and returns the text that the values of its pieces make together.
///
/// The control characters are left out. Each escapable piece is replaced by the value that `transform`
/// returns for it. The output takes its memory from `alloc`. It grows with each piece, and the answer is
/// `OutOfMemory` if it can't.
///
/// It accepts as `escaped` does. A last piece that consumes nothing adds its value too. If no piece begins at
/// the start, the parser refuses with `EscapedTransform` there. If the control character is the last item,
/// complete refuses with `EscapedTransform` at that character, and streaming needs more, of an unknown
/// amount.
#[inline(always)]
pub fn escaped_transform<A: Allocator + Copy, F, G>(
    alloc: A,
    normal: F,
    control_char: char,
    transform: G,
) -> EscapedTransform<A, F, G>
    ensures alloc { result.alloc ≡ alloc }
    ensures normal { result.normal ≡ normal }
    ensures control_char { result.control_char ≡ control_char }
    ensures transform { result.transform ≡ transform }
{
    EscapedTransform {
        alloc,
        normal,
        control_char,
        transform,
    }
}
