//! Integers in decimal digits.
ghost use Rattle.std.specs.Prelude.{◌≡◌, ◌<◌, ◌+◌, ◌-◌, ◌*◌, ◌+ℤ◌, ◌*ℤ◌, ◌≤ℤ◌, ℕ, Bool, ℤ, pos, int_div, true, false, [], ◌∷◌, MatchOption};
ghost use Rattle.std.proofs.Common.{sym, ◌∙◌};
ghost use Rattle.nom_internal.specs.Prelude.{is_dec_digit_code, Built};
ghost use Rattle.num_traits.specs.Laws.{Checks};
ghost use Rattle.nom_character_integer.specs.Integers.{with_sign, sign_of, integer_meaning};
ghost use Rattle.nom_character_integer.specs.laws.IntegerLaws.{integer_lawful, integer_steady, range_of};
ghost use Rattle.nom_character_integer.specs.Read.{AfterSign, IsRead, IsUnfit};
ghost use Rattle.nom_character_integer.specs.Words as Words;

use nom_character_first::first::first;
use nom_error::answer::{Err, Needed, PResult};
use nom_error::kind::ErrorKind;
use nom_error::mode::{IsStreaming, Mode, OutputMode};
use nom_error::value::{ParseError, refusal};
use nom_internal::parser::{Parser, StreamParser};
use nom_traits::character::AsChar;
use nom_traits::input::Input;
use nom_traits::view::Viewed;
use num_traits::{NumCast, PrimInt, Zero};
use std::marker::PhantomData;

/// Returns ten times `number` plus `ones`, or minus `ones` if `negative`. Returns `None` if the type can't
/// hold it.
#[inline(always)]
fn ten_times_and<T: PrimInt>(number: T, ten: T, ones: T, negative: bool) -> Option<T>
    ensures { (n d : ℕ) → T.value number ≡ with_sign negative n → T.value ten ≡ pos 10 → T.value ones ≡ pos d →
        Checks T.value T.fits (with_sign negative (10 * n + d)) result }
{
    let tens = number.checked_mul(&ten)?;
    if negative {
        tens.checked_sub(&ones)
    } else {
        tens.checked_add(&ones)
    }
}

/// Returns a tenth of the type's greatest number, rounded down.
#[inline(always)]
fn tenth_of_greatest<T: PrimInt>(ten: T) -> T
    requires { T.value ten ≡ pos 10 }
    ensures { T.value result ≡ int_div T.high (pos 10) }
{
    T::max_value() / ten
}

/// Returns ten times `number` plus `ones`, a number that the type has.
#[inline(always)]
fn ten_times_more<T: PrimInt>(number: T, ten: T, ones: T) -> T
    requires { T.fits (T.value number *ℤ T.value ten) × T.fits (T.value number *ℤ T.value ten +ℤ T.value ones) }
    ensures fits { T.fits (T.value result) }
    ensures value { T.value result ≡ T.value number *ℤ T.value ten +ℤ T.value ones }
{
    number * ten + ones
}

/// Returns `number` with one more digit appended, or `None` if the type can't hold it.
///
/// After a number below a tenth of the greatest one, any digit may follow, and no sum is tested.
#[inline(always)]
fn followed_by<T: PrimInt>(number: T, digit: u8, negative: bool) -> Option<T>
    requires digit { digit < 10 }
    requires sign { negative ≡ false → pos 0 ≤ℤ T.value number }
    ensures { (n : ℕ) → T.value number ≡ with_sign negative n → Checks T.value T.fits (with_sign negative (10 * n + digit)) result }
{
    let ten = <T as NumCast>::from(10u8)?;
    let ones = <T as NumCast>::from(digit)?;
    if !negative && number < tenth_of_greatest(ten) {
        return Some(ten_times_more(number, ten, ones));
    }
    ten_times_and(number, ten, ones, negative)
}

/// Returns the value of an item that is a decimal digit.
#[inline(always)]
fn digit_of<C: AsChar>(item: C) -> Option<u8>
    ensures { MatchOption result (is_dec_digit_code (C.code item) ≡ false) (λ d. (is_dec_digit_code (C.code item) ≡ true) × (d ≡ C.code item - 48)) }
{
    if item.is_dec_digit() {
        Some((item.as_char() as u32 - 48) as u8)
    } else {
        None
    }
}

/// Returns the sign at the start of the input, if one is allowed there.
#[inline(always)]
fn sign_at<I: Input>(input: I, signed: bool) -> Option<I::Item>
where
    I::Item: AsChar,
    ensures { MatchOption result (sign_of I.Item.code signed (I.model.elements input) ≡ [])
        (λ x. sign_of I.Item.code signed (I.model.elements input) ≡ x ∷ []) }
{
    if !signed {
        return None;
    }
    match first(input) {
        Some(item) if item.as_char() == '+' || item.as_char() == '-' => Some(item),
        _ => None,
    }
}

/// The part of an input after an optional sign.
#[derive(Drop)]
pub struct Unsigned<I> {
    /// Whether the sign is a minus.
    pub negative: bool,
    /// The input after the sign.
    pub digits: I,
}

/// Returns the input after its sign, if a sign is allowed at the start.
#[inline(always)]
fn after_sign<I: Input>(input: I, signed: bool) -> Unsigned<I>
where
    I::Item: AsChar,
    ensures { AfterSign I.model I.Item.code signed input result }
{
    input.known();
    match sign_at(input, signed) {
        Some(sign) => Unsigned {
            negative: sign.as_char() == '-',
            digits: input.take_from(input.item_len(&sign)),
        },
        None => Unsigned {
            negative: false,
            digits: input,
        },
    }
}

/// A number that was read.
#[derive(Drop)]
pub struct Number<T> {
    /// The number.
    pub value: T,
    /// The length of its digits.
    pub length: usize,
    /// Whether an item follows the digits.
    pub followed: bool,
}

/// Returns the number that the first digits write, or `None` if the type can't hold it.
///
/// `None` is returned at the digit that is too much.
#[inline(always)]
fn number_at<I: Input, T: PrimInt>(input: I, negative: bool) -> Option<Number<T>>
where
    I::Item: AsChar,
    ensures { MatchOption result (IsUnfit I.model I.Item.code T.fits negative input) (IsRead I.model I.Item.code T.value T.fits negative input) }
{
    let mut value = T::zero();
    for (length, item) in input.iter_indices() {
        match digit_of(item) {
            None => {
                return Some(Number {
                    value,
                    length,
                    followed: true,
                });
            }
            Some(digit) => match followed_by(value, digit, negative) {
                None => return None,
                Some(more) => value = more,
            },
        }
    }
    Some(Number {
        value,
        length: input.input_len(),
        followed: false,
    })
}

/// Returns the value, if outputs are built.
#[inline(always)]
fn built<M: Mode, T: Drop>(value: T) -> Option<T>
    ensures { Built M.BUILDS (λ x. x ≡ value) result }
{
    if M::BUILDS { Some(value) } else { None }
}

/// The parser that `u8` and its siblings return: an integer in decimal digits, of the type `T`.
#[derive(Drop)]
pub struct Integer<T, I, E> {
    /// Whether a sign is allowed at the start.
    pub signed: bool,
    /// The types of the number, of the input and of the error.
    pub types: PhantomData<(T, I, E)>,
}

impl<I: Input, T: PrimInt, E: ParseError<I>> Parser<I> for Integer<T, I, E>
where
    I::Item: AsChar,
{
    type Output = T;

    type Error = E;

    ghost State = { Bool };

    ghost state = { λ p. p.signed };

    ghost Tree = { ℤ };

    ghost grammar = { λ signed. record {
      meaning = integer_meaning I.model I.Item.code signed T.fits E.errors;
      IsOutput = λ z x. T.value x ≡ z;
    } };

    ghost word = { λ signed. Words.integer_of I.model E.errors I.Item.code T.value T.fits signed };

    ghost worded = { λ signed. Words.integer_worded I.model E.errors I.Item.code T.value T.fits signed };

    #[inline(always)]
    fn process<OM: OutputMode>(&mut self, input: I) -> PResult<I, T, E> {
        let after = after_sign(input, self.signed);
        match number_at::<I, T>(after.digits, after.negative) {
            None => Err(refusal::<OM::Error, I, E>(input, ErrorKind::Digit)),
            Some(number) if !number.followed && OM::Incomplete::STREAMING => {
                Err(Err::Incomplete(Needed::new(1)))
            }
            Some(number) if number.length == 0 => {
                Err(refusal::<OM::Error, I, E>(input, ErrorKind::Digit))
            }
            Some(number) => Ok((
                after.digits.take_from(number.length),
                built::<OM::Output, T>(number.value),
            )),
        }
    }

    ghost lawful = { λ signed k. integer_lawful I.model I.Item.code signed T.fits (range_of T.fits T.exact T.exact_law T.small_fits_law T.between_law)
        E.errors };
}

impl<I: Input, T: PrimInt + Viewed, E: ParseError<I>> StreamParser<I> for Integer<T, I, E>
where
    I::Item: AsChar,
{
    ghost Pins = { λ _. (x y : T) → T.value x ≡ T.value y → T.view.value x ≡ T.view.value y };

    ghost pinned = { λ p k h. record { one_view = λ t x y f g. h x y (f ∙ sym g) } };

    ghost steady = { λ signed k. integer_steady I.model I.Item.code signed T.fits (range_of T.fits T.exact T.exact_law T.small_fits_law T.between_law)
        E.errors };
}
