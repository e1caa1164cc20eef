//! Parsers made of functions.
ghost use Rattle.std.specs.Prelude.{◌≡◌};

use crate::func::{Func, StreamFunc};
use crate::func_in::{FuncIn, StreamFuncIn};
use nom_error::answer::IResult;
use std::marker::PhantomData;

/// Converts a function or closure to a parser.
///
/// The parser answers as the function does, the same in both modes. It drops values that the mode doesn't
/// require.
///
/// The only requirement is that the function may be called with every input. Only the length of the rest that
/// the function leaves is used. The parser cuts a rest of that length from the input. If the input has no
/// rest of that length, the parser fails with `Fail`.
///
/// The laws of the parser require more. The function must answer inputs that are equal as models with one
/// outcome. Outputs are compared by their views. All functions of this library meet this.
#[inline(always)]
pub fn func<I, O, E, F: Fn(I) -> IResult<I, O, E>>(f: F) -> Func<F, I, O, E>
    ensures { result.f ≡ f }
{
    Func { f, of: PhantomData }
}

/// Converts a function or closure to a stream parser, like `func`.
///
/// It requires no more than `func`. Its laws also require that every decision of the function on an input
/// holds on every longer input.
#[inline(always)]
pub fn stream_func<I, O, E, F: Fn(I) -> IResult<I, O, E>>(f: F) -> StreamFunc<F, I, O, E>
    ensures { result.func.f ≡ f }
{
    StreamFunc { func: func(f) }
}

/// Converts a function of an allocator and an input to a parser, by its name.
///
/// `func_in(alloc, f)` answers as `func(|input| f(alloc, input))`, and works where the borrow checker
/// refuses a closure that captures. Its laws are those of `func`. Other values that are `Copy` may
/// stand in the place of the allocator, such as an allocator and a depth.
#[inline(always)]
pub fn func_in<A: Copy, I, O, E, F: Fn(A, I) -> IResult<I, O, E>>(
    alloc: A,
    f: F,
) -> FuncIn<A, F, I, O, E>
    ensures alloc { result.alloc ≡ alloc }
    ensures f { result.f ≡ f }
{
    FuncIn {
        alloc,
        f,
        of: PhantomData,
    }
}

/// Converts a function of an allocator and an input to a stream parser, like `func_in`.
///
/// It requires no more than `func_in`. Its laws are those of `stream_func`.
#[inline(always)]
pub fn stream_func_in<A: Copy, I, O, E, F: Fn(A, I) -> IResult<I, O, E>>(
    alloc: A,
    f: F,
) -> StreamFuncIn<A, F, I, O, E>
    ensures alloc { result.func.alloc ≡ alloc }
    ensures f { result.func.f ≡ f }
{
    StreamFuncIn {
        func: func_in(alloc, f),
    }
}
