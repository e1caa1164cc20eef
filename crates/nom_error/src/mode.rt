//! Modes of a parse: which values a parser builds, and whether more input may come.
ghost use Rattle.std.specs.Prelude.{Bool, true, false, ◌≡◌, Option};
ghost use Rattle.nom_error.specs.Modes.{Built, BuiltFrom, BuiltFromBoth};
ghost use Rattle.nom_error.specs.Answers.{IsLack};

use crate::answer::{Err, Needed};
use std::marker::PhantomData;

/// Chooses whether values are built.
pub trait Mode: Sized {
    ghost BUILDS: { Bool };

    /// Whether values are built.
    const BUILDS: bool;

    /// Returns the value of `f` if values are built.
    #[inline(always)]
    final fn bind<T, F: FnOnce() -> T + Drop>(f: F) -> Option<T>
        requires { F.IsAlwaysCallable f }
        ensures { Built BUILDS (F.post f) result }
    {
        if Self::BUILDS { Some(f()) } else { None }
    }

    /// Maps a value with `f` if values are built.
    #[inline(always)]
    final fn map<T: Drop, U, F: FnOnce(T) -> U + Drop>(x: Option<T>, f: F) -> Option<U>
        requires { F.IsAlwaysCallable f }
        ensures { BuiltFrom BUILDS (F.post f) x result }
    {
        if Self::BUILDS {
            match x {
                Some(value) => Some(f(value)),
                None => None,
            }
        } else {
            None
        }
    }

    /// Combines two values with `f` if values are built.
    #[inline(always)]
    final fn combine<T: Drop, U: Drop, V, F: FnOnce(T, U) -> V + Drop>(
        x: Option<T>,
        y: Option<U>,
        f: F,
    ) -> Option<V>
        requires { F.IsAlwaysCallable f }
        ensures { BuiltFromBoth BUILDS (F.post f) x y result }
    {
        if Self::BUILDS {
            match (x, y) {
                (Some(first), Some(second)) => Some(f(first, second)),
                _ => None,
            }
        } else {
            None
        }
    }
}

/// The mode in which values are built.
pub struct Emit;

/// The mode in which values are only checked.
pub struct Check;

impl Mode for Emit {
    ghost BUILDS = { true };

    const BUILDS: bool = true;
}

impl Mode for Check {
    ghost BUILDS = { false };

    const BUILDS: bool = false;
}

/// Chooses whether more input may come.
pub trait IsStreaming: Sized {
    ghost STREAMING: { Bool };

    /// Whether more input may come.
    const STREAMING: bool;

    /// Returns whether more input may come.
    #[inline(always)]
    final fn is_streaming() -> bool
        ensures { result ≡ STREAMING }
    {
        Self::STREAMING
    }

    /// Returns the answer for an input that ends too early.
    ///
    /// A streaming parser needs more input. A complete one refuses with the error that `f` returns.
    #[inline(always)]
    final fn incomplete<E, F: FnOnce() -> E + Drop>(needed: Needed, f: F) -> Err<E>
        requires { F.IsAlwaysCallable f }
        ensures { IsLack STREAMING (F.post f) needed result }
    {
        if Self::STREAMING {
            Err::Incomplete(needed)
        } else {
            Err::Error(f())
        }
    }
}

/// The streaming mode: more input may come. If a parser can't decide, it answers `Incomplete`.
pub struct Streaming;

/// The complete mode: no more input comes. A parser that would need more refuses, or takes the input that
/// there is.
pub struct Complete;

impl IsStreaming for Streaming {
    ghost STREAMING = { true };

    const STREAMING: bool = true;
}

impl IsStreaming for Complete {
    ghost STREAMING = { false };

    const STREAMING: bool = false;
}

/// Chooses what `process` builds, and whether more input may come.
pub trait OutputMode {
    /// Whether outputs are built.
    type Output: Mode;

    /// Whether the errors of refusals are built.
    type Error: Mode;

    /// Whether more input may come.
    type Incomplete: IsStreaming;
}

/// The output mode made of three modes: for outputs, for errors, and for the end of the input.
pub struct OutputM<M, EM, S> {
    modes: PhantomData<(M, EM, S)>,
}

impl<M: Mode, EM: Mode, S: IsStreaming> OutputMode for OutputM<M, EM, S> {
    type Output = M;

    type Error = EM;

    type Incomplete = S;
}
