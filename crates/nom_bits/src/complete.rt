//! Bit fields, in complete mode.
//!
//! If there are fewer bits, each parser refuses with `Eof` at the start.
ghost use Rattle.std.specs.Prelude.{◌≡◌, ◌≤◌, false};
ghost use Rattle.std.specs.Result.{IfOk};
ghost use Rattle.nom_internal.specs.Prelude.{bits_model, itself};
ghost use Rattle.nom_calls.specs.Func.{AnswersBy};
ghost use Rattle.nom_bits.specs.BitRests.{StandsAfter};
ghost use Rattle.nom_bits.specs.Fields.{bool_meaning};

use crate::leaf::{Bool, Tag, Take};
use crate::number::BitUint;
use nom_error::answer::IResult;
use nom_error::mode::{Complete, Emit, OutputM};
use nom_error::value::ParseError;
use nom_internal::fixed::Fixed;
use nom_internal::one_mode::fixed;
use nom_internal::parser::{Parser, full};
use nom_traits::convert::ToUsize;
use nom_traits::input::Input;
use std::marker::PhantomData;

/// Returns the number in the next `count` bits. `count` is at most the width of `O`.
#[inline(always)]
pub fn take<I, O: BitUint, C: ToUsize + Drop, E>(count: C) -> Fixed<Take<I, O, E>, Complete>
    requires { C.size count ≤ O.WIDTH }
    ensures { result.parser.count ≡ C.size count }
{
    fixed(crate::take(count))
}

/// Matches the number `pattern` in the next `count` bits. `count` is at most the width of `O`.
///
/// Another number is refused with `TagBits` at the start.
#[inline(always)]
pub fn tag<I, O: BitUint, C: ToUsize + Drop, E>(
    pattern: O,
    count: C,
) -> Fixed<Tag<I, O, E>, Complete>
    requires { C.size count ≤ O.WIDTH }
    ensures pattern { result.parser.pattern ≡ O.bits pattern }
    ensures count { result.parser.count ≡ C.size count }
{
    fixed(crate::tag(pattern, count))
}

/// Returns whether the next bit is 1.
#[inline(always)]
pub fn bool<I: Input<Item = u8>, E: ParseError<(I, usize)>>(
    input: (I, usize),
) -> IResult<(I, usize), bool, E>
    ensures shown { AnswersBy (bits_model I.model) itself (λ t v. v ≡ t) (bool_meaning I.model E.errors) false input result }
    // The pair that is left.
    ensures pair { IfOk result (λ accepted. StandsAfter I.model input 1 accepted.0) }
{
    let mut parser = Bool::<I, E> { types: PhantomData };
    full(parser.process::<OutputM<Emit, Emit, Complete>>(input))
}
