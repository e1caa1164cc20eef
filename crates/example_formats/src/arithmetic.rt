//! Whole numbers with operators between them, and brackets, to their value: by `precedence`.
ghost use Rattle.std.specs.Prelude.{◌≡◌, codes};
ghost use Rattle.nom_internal.specs.Prelude.{text_model};
ghost use Rattle.nom_calls.specs.Func.{TakesAll};
ghost use Rattle.example_formats.specs.Arithmetic.{
  Answers,
  Applies,
  Divides,
  Given,
  Inside,
  IsFitting,
  IsLeveled,
  IsNumber,
  IsPlace,
  Joins,
  Negates,
  Operates,
  Parses,
  Powers,
  char_of,
  digits_of,
  level_of,
  one_of_by,
  sum_in,
  sum_of,
  view,
};
ghost use Rattle.nom_error.specs.declared.kind.ErrorKind.TheVariants.{Char, OneOf};

use nom::branch::alt;
use nom::character::{char, digit1, one_of};
use nom::combinator::{cut, fail};
use nom::error::{ErrorKind, ParseError};
use nom::sequence::delimited;
use nom::{Err, IResult, OutOfMemory, Parser, Viewed, func};
use nom_precedence::{Assoc, Operation, precedence};
use std::alloc::Global;

/// Why a text has no value, and the text from there on.
#[derive(Clone, Copy, Debug, PartialEq, Eq)]
pub enum Fault<'a> {
    /// It isn't as the grammar says.
    Syntax(&'a str, ErrorKind),
    /// What stands in a bracket that lies in too many others.
    TooDeep(&'a str),
    /// The number, or the result of the operator there, is outside the `i64`.
    Overflow(&'a str),
    /// The operator there divides by 0.
    DivisionByZero(&'a str),
    /// The operator there raises to a power that is no `u32`.
    Exponent(&'a str),
}

impl<'a> ParseError<&'a str> for Fault<'a> {
    ghost use Rattle.example_formats.specs.declared.arithmetic.Fault.TheVariants.{Syntax};

    ghost errors = { record {
      of_kind = λ input kind error. error ≡ Syntax input kind;
      appended = λ _ _ other error. error ≡ other;
      of_char = λ input _ error. error ≡ Syntax input Char;
      joined = λ _ second error. error ≡ second;
      grows = ⊥;
    } };

    fn from_error_kind(input: &'a str, kind: ErrorKind) -> Result<Self, OutOfMemory> {
        Ok(Fault::Syntax(input, kind))
    }

    fn append(_input: &'a str, _kind: ErrorKind, other: Self) -> Result<Self, OutOfMemory> {
        Ok(other)
    }

    fn from_char(input: &'a str, _wanted: char) -> Result<Self, OutOfMemory> {
        Ok(Fault::Syntax(input, ErrorKind::Char))
    }

    fn or(self, other: Self) -> Result<Self, OutOfMemory> {
        Ok(other)
    }
}

/// Why a part has no value.
#[derive(Clone, Copy)]
pub enum Wrong {
    Overflow,
    DivisionByZero,
    Exponent,
}

impl Viewed for Wrong {}

type Answer<'a, T> = IResult<&'a str, T, Fault<'a>>;

/// The value of a part; or why there is none, and where.
type Worth<'a> = Result<i64, (Wrong, &'a str)>;

/// The number that digits tell, which stand at a place.
fn told<'a>(place: &'a str, digits: &'a str) -> Worth<'a>
    ensures { IsNumber place.entry digits.entry result }
{
    match i64::from_str_radix(digits, 10) {
        Ok(number) => Ok(number),
        Err(_) => Err((Wrong::Overflow, place)),
    }
}

/// Decimal digits.
fn number<'a>(input: &'a str) -> Answer<'a, Worth<'a>>
    ensures { Given IsNumber digits_of input.entry result }
{
    let (rest, digits) = digit1::<_, Fault<'a>>().parse_complete(input)?;
    Ok((rest, told(input, digits)))
}

/// A minus, as the text from there on.
fn minus<'a>(input: &'a str) -> Answer<'a, &'a str>
    ensures { Given IsPlace (char_of 45) input.entry result }
{
    let (rest, _) = char::<_, Fault<'a>>('-').parse_complete(input)?;
    Ok((rest, input))
}

/// The level of an operator: the greater, the looser.
fn level(operator: char) -> usize
    ensures { result ≡ level_of operator }
{
    match operator {
        '^' => 0,
        '*' => 1,
        '/' => 1,
        _ => 2,
    }
}

/// An operator with its level and the text from there on.
fn operator<'a>(input: &'a str) -> Answer<'a, (usize, (&'a str, char))>
    ensures { Given IsLeveled (one_of_by (codes "^*/+-") OneOf) input.entry result }
{
    let (rest, sign) = one_of::<_, _, Fault<'a>>("^*/+-").parse_complete(input)?;
    Ok((rest, (level(sign), (input, sign))))
}

/// The number, where there is one.
fn fitting<'a>(number: Option<i64>, place: &'a str) -> Worth<'a>
    ensures { IsFitting number place.entry result }
{
    match number {
        Some(number) => Ok(number),
        None => Err((Wrong::Overflow, place)),
    }
}

/// A power.
fn power<'a>(place: &'a str, x: i64, y: i64) -> Worth<'a>
    ensures { Powers x y place.entry result }
{
    match u32::try_from(y) {
        Ok(exponent) => fitting(x.checked_pow(exponent), place),
        Err(_) => Err((Wrong::Exponent, place)),
    }
}

/// A quotient, rounded towards 0.
fn quotient<'a>(place: &'a str, x: i64, y: i64) -> Worth<'a>
    ensures { Divides x y place.entry result }
{
    if y == 0 {
        return Err((Wrong::DivisionByZero, place));
    }
    fitting(x.checked_div(y), place)
}

/// What an operator makes of two numbers.
fn operated<'a>(operator: (&'a str, char), x: i64, y: i64) -> Worth<'a>
    ensures { Operates operator.entry x y result }
{
    let (place, sign) = operator;
    match sign {
        '^' => power(place, x, y),
        '*' => fitting(x.checked_mul(y), place),
        '/' => quotient(place, x, y),
        '+' => fitting(x.checked_add(y), place),
        _ => fitting(x.checked_sub(y), place),
    }
}

type Signed<'a> = Operation<&'a str, (), (&'a str, char), Worth<'a>>;

/// What stands on both sides of an operator, joined.
fn joined<'a>(x: Worth<'a>, operator: (&'a str, char), y: Worth<'a>) -> Worth<'a>
    ensures { Joins operator.entry x.entry y.entry result }
{
    match x {
        Err(fault) => Err(fault),
        Ok(x) => match y {
            Err(fault) => Err(fault),
            Ok(y) => operated(operator, x, y),
        },
    }
}

/// A value under a minus.
fn negated<'a>(place: &'a str, x: Worth<'a>) -> Worth<'a>
    ensures { Negates place.entry x.entry result }
{
    match x {
        Ok(x) => fitting(x.checked_neg(), place),
        Err(fault) => Err(fault),
    }
}

/// The value of an operation: of faults the first, from left to right.
fn applied<'a>(operation: Signed<'a>) -> Worth<'a>
    ensures { Applies operation.entry result }
{
    match operation {
        Operation::Prefix(place, x) => negated(place, x),
        Operation::Postfix(x, _) => x,
        Operation::Binary(x, operator, y) => joined(x, operator, y),
    }
}

/// A sum, by what stands in its brackets.
fn sum_over<'a, F>(alloc: Global, inside: F, input: &'a str) -> Answer<'a, Worth<'a>>
where
    F: Fn(&'a str) -> Answer<'a, Worth<'a>> + Drop,
    requires { TakesAll text_model (F.pre inside) }
    ensures { Parses (sum_in (F.pre inside) (F.post inside)) input.entry result }
{
    let levels = [Assoc::Right, Assoc::Left, Assoc::Left];
    let brackets = delimited(char('('), cut(func(inside)), cut(char(')')));
    let operand = alt((brackets, func(number)));
    let none = fail::<_, (), _>();
    precedence(
        alloc,
        &levels[..],
        func(minus),
        operand,
        none,
        func(operator),
        applied,
    )
    .parse_complete(input)
}

/// The sum at the start of a text, in which `depth` brackets may lie in each other, with its value.
fn sum<'a>(alloc: Global, depth: usize, input: &'a str) -> Answer<'a, Worth<'a>>
    ensures { Parses (sum_of depth) input.entry result }
{
    let inside = |text|
        ensures { Inside depth text.entry result }
    {
        if depth == 0 {
            Err(Err::Failure(Fault::TooDeep(text)))
        } else {
            sum(alloc, depth - 1, text)
        }
    };
    sum_over(alloc, inside, input)
}

/// The value of a sum:
///
/// ```text
/// sum     = term (('^' | '*' | '/' | '+' | '-') term)*
/// term    = '-'* (digit+ | '(' sum ')')
/// ```
///
/// A minus before a term binds the tightest, so that `-2^2` is 4; then come `^`, which is grouped from the right, `*` and
/// `/`, and `+` and `-`, which are grouped from the left. A quotient is rounded towards 0. What follows the sum is left,
/// and so is an operator that no term follows.
///
/// A text that isn't one is refused with `Syntax`. The others are failures: `Syntax` where a bracket doesn't hold a sum, or
/// isn't closed; `TooDeep` where more than `depth` brackets lie in each other, so that `depth` bounds the stack that a
/// hostile text can take; and where the sum has no value, `Overflow`, `DivisionByZero` or `Exponent` at the number or the
/// operator that has none. Of several the first counts: the left side of an operator is valued before the right side, and
/// both before the operator.
pub fn expression<'a>(alloc: Global, depth: usize, input: &'a str) -> Answer<'a, i64>
    ensures { Answers depth input.entry result }
{
    let (rest, worth) = sum(alloc, depth, input)?;
    match worth {
        Ok(value) => Ok((rest, value)),
        Err((Wrong::Overflow, place)) => Err(Err::Failure(Fault::Overflow(place))),
        Err((Wrong::DivisionByZero, place)) => Err(Err::Failure(Fault::DivisionByZero(place))),
        Err((Wrong::Exponent, place)) => Err(Err::Failure(Fault::Exponent(place))),
    }
}
