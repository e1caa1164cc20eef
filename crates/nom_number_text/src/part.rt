//! The parts of a decimal fraction.
ghost use Rattle.std.specs.Prelude.{◌≡◌, ◌⊎◌, ℕ, Option, ℤ};
ghost use Rattle.nom_internal.specs.Prelude.{modes, items_len, Slice, IsModelledBy, ShowsMeaning};
ghost use Rattle.nom_number_text.specs.Parts.{zeros_of, fraction_of, integer_slice, fraction_slice, is_plus, power_read, Both, parts_meaning, IsParts, IsRaw};
ghost use Rattle.nom_number_text.specs.laws.PartLaws.{parts_stream, parts_pinned};
ghost use Rattle.nom_number_text.specs.Words as Words;

use crate::float::either;
use crate::kind::AsFloat;
use nom_branch::alt;
use nom_character::{ClassRun, char, digit1};
use nom_character_integer::integer::Integer;
use nom_combinator::{cut, opt};
use nom_error::answer::PResult;
use nom_error::mode::OutputMode;
use nom_error::value::ParseError;
use nom_internal::parser::{Parser, StreamParser};
use nom_sequence::{pair, preceded};
use nom_traits::character::{AsChar, AsciiClass};
use nom_traits::input::Input;
use std::marker::PhantomData;

/// Returns whether the sign isn't a minus.
#[inline(always)]
fn no_minus(sign: Option<char>) -> bool
    ensures { result ≡ is_plus sign }
{
    match sign {
        Some(sign) => sign != '-',
        None => true,
    }
}

/// Returns the power that was read, or 0.
#[inline(always)]
fn power_of(power: Option<i32>) -> i32
    ensures { result ≡ power_read power }
{
    match power {
        Some(power) => power,
        None => 0,
    }
}

/// Returns the length of the leading zeros, never counting the last item.
#[inline(always)]
fn zeros_len<I: Input>(digits: I) -> usize
where
    I::Item: AsChar,
    ensures { result ≡ items_len I.model.item_len (zeros_of I.Item.code (I.model.elements digits)) }
{
    let length = digits.input_len();
    let mut place = 0;
    for item in digits.iter_elements() {
        let after = place + digits.item_len(&item);
        if item.as_char() != '0' || after == length {
            return place;
        }
        place = after;
    }
    place
}

/// Returns the digits without their leading zeros. If all are zeros, the last one stays.
#[inline(always)]
fn integer_part<I: Input>(digits: I) -> I
where
    I::Item: AsChar,
    ensures { (t : Slice I.model) → IsModelledBy I.model t digits → IsModelledBy I.model (integer_slice I.model I.Item.code t) result }
{
    digits.take_from(zeros_len(digits))
}

/// Returns the length up to the last item that isn't zero, and at least the length of the first item.
#[inline(always)]
fn kept_len<I: Input>(digits: I) -> usize
where
    I::Item: AsChar,
    ensures { result ≡ items_len I.model.item_len (fraction_of I.Item.code (I.model.elements digits)) }
{
    // The length is the bound of each place; it is read and not used.
    let _length = digits.input_len();
    let mut place = 0;
    let mut kept = 0;
    for item in digits.iter_elements() {
        place = place + digits.item_len(&item);
        if kept == 0 || item.as_char() != '0' {
            kept = place;
        }
    }
    kept
}

/// Returns the digits without their trailing zeros. If all are zeros, the first one stays.
#[inline(always)]
fn fraction_part<I: Input>(digits: I) -> I
where
    I::Item: AsChar,
    ensures { (t : Slice I.model) → IsModelledBy I.model t digits → IsModelledBy I.model (fraction_slice I.model I.Item.code t) result }
{
    digits.take(kept_len(digits))
}

/// Returns the parts that were read, without the leading and trailing zeros.
#[inline(always)]
fn parts<I: Input>(read: ((Option<char>, (I, I)), Option<i32>)) -> (bool, I, I, i32)
where
    I::Item: AsChar,
    ensures { (t : (Option (ℕ ⊎ ℕ) × Both I.model) × Option ℤ) → IsRaw I.model t read → IsParts I.model I.Item.code t result }
{
    let ((sign, (before, after)), power) = read;
    (
        no_minus(sign),
        integer_part(before),
        fraction_part(after),
        power_of(power),
    )
}

/// Returns a parser of zero or more decimal digits.
#[inline(always)]
fn digit0<I, E>() -> ClassRun<I, E>
    ensures class { result.class ≡ AsciiClass.Digit }
    ensures wanted { result.wanted ≡ None }
{
    ClassRun {
        class: AsciiClass::Digit,
        wanted: None,
        error: PhantomData,
    }
}

/// Reads the digits and signs, before zeros are removed.
#[inline(always)]
fn read<OM: OutputMode, I: Input, E: ParseError<I>>(
    input: I,
) -> PResult<I, ((Option<char>, (I, I)), Option<i32>), E>
where
    I::Item: AsChar,
    ensures { ShowsMeaning I.model (IsRaw I.model) (parts_meaning I.model I.Item.code E.errors)
        (modes OM.Output.BUILDS OM.Error.BUILDS OM.Incomplete.STREAMING) input result }
{
    let after = alt((preceded(char('.'), digit0()), digit0()));
    let alone = pair(digit0(), preceded(char('.'), digit1()));
    let both = alt((pair(digit1(), after), alone));
    let mantissa = AsFloat {
        parser: pair(opt(either('+', '-')), both),
    };
    let number = Integer::<i32, I, E> {
        signed: true,
        types: PhantomData,
    };
    let power = opt(preceded(either('e', 'E'), cut(number)));
    let mut shape = pair(mantissa, power);
    shape.process::<OM>(input)
}

/// The parser that `recognize_float_parts` runs: the parts of a decimal fraction.
#[derive(Drop)]
pub struct FloatParts<I, E> {
    pub error: PhantomData<(I, E)>,
}

impl<I: Input, E: ParseError<I>> Parser<I> for FloatParts<I, E>
where
    I::Item: AsChar,
{
    type Output = (bool, I, I, i32);

    type Error = E;

    ghost State = { Unit {0} };

    ghost state = { λ _. tt };

    ghost Tree = { (Option (ℕ ⊎ ℕ) × Both I.model) × Option ℤ };

    ghost grammar = { λ _. record { meaning = parts_meaning I.model I.Item.code E.errors; IsOutput = IsParts I.model I.Item.code } };

    ghost word = { λ _. Words.float_parts_of I.model E.errors I.Item.code };

    ghost worded = { λ _. Words.float_parts_worded I.model E.errors I.Item.code };

    #[inline(always)]
    fn process<OM: OutputMode>(&mut self, input: I) -> PResult<I, Self::Output, E> {
        let (rest, read) = read::<OM, I, E>(input)?;
        match read {
            Some(read) => Ok((rest, Some(parts(read)))),
            None => Ok((rest, None)),
        }
    }

    ghost lawful = { λ _ k. (parts_stream I.model I.lawful I.Item.IsValue I.values I.Item.code E.errors).lawful };
}

impl<I: Input, E: ParseError<I>> StreamParser<I> for FloatParts<I, E>
where
    I::Item: AsChar,
{
    ghost pinned = { λ p k h. parts_pinned I.model I.views I.Item.code };

    ghost steady = { λ _ k. (parts_stream I.model I.lawful I.Item.IsValue I.values I.Item.code E.errors).steady };
}
