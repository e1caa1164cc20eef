//! The row of operator precedence.
ghost use Rattle.std.specs.Prelude.{◌≡◌};
ghost use Rattle.nom_vectors.specs.Levels.{level_of};

use crate::answers::{Answers, answers_of};
use nom::character::{char, one_of};
use nom::combinator::fail;
use nom::error::{Error, ErrorKind};
use nom::{Err, Parser};
use nom_precedence::{Assoc, Operation, precedence};
use std::alloc::Global;

type Bad<'a> = Error<&'a str>;

/// An operator with its level: `^` is the tightest, then `*`, then `-`, and the level of `?` isn't there.
fn leveled(operator: char) -> (usize, char)
    ensures { result.0 ≡ level_of operator }
{
    match operator {
        '^' => (0, operator),
        '*' => (1, operator),
        '-' => (2, operator),
        _ => (3, operator),
    }
}

/// The number of a decimal digit.
fn digit(c: char) -> i64 {
    match c {
        '0'..='9' => c as u32 as i64 - 48,
        _ => 0,
    }
}

/// A power, modulo 2^64.
fn power(x: i64, y: i64) -> i64 {
    let mut z = 1i64;
    for _ in 0..y {
        z = z.wrapping_mul(x);
    }
    z
}

/// The value of an operation, modulo 2^64.
fn value(operation: Operation<char, (), char, i64>) -> i64 {
    match operation {
        Operation::Prefix(_, x) => 0i64.wrapping_sub(x),
        Operation::Postfix(x, _) => x,
        Operation::Binary(x, '^', y) => power(x, y),
        Operation::Binary(x, '*', y) => x.wrapping_mul(y),
        Operation::Binary(x, _, y) => x.wrapping_sub(y),
    }
}

/// `precedence` over one-digit operands, with levels grouped from the right, the left and the left, and `~` as
/// prefix.
fn expression(alloc: Global, input: &str) -> Answers<&str, i64, Bad<'_>> {
    let levels = [Assoc::Right, Assoc::Left, Assoc::Left];
    let operand = one_of("0123456789").map(digit);
    let operator = one_of("^*-?").map(leveled);
    let none = fail::<_, (), _>();
    let expression = precedence(
        alloc,
        &levels[..],
        char('~'),
        operand,
        none,
        operator,
        value,
    );
    answers_of(alloc, expression, input)
}

/// Whether an input gives a value with a rest.
fn gives(alloc: Global, input: &str, wanted: i64, left: &str) -> bool {
    let found = expression(alloc, input);
    match found.streaming {
        Ok((rest, value)) => rest == left && value == wanted && found.grows,
        Err(_) => false,
    }
}

/// `precedence` streaming: `1-2-3*4;` gives -13, `2^3^2;` 512, `~2^2;` 4, each with rest `;`; `1-;` gives 1 with
/// rest `-;`; `1?2;` is Failure Precedence at `?2;`.
pub fn row_33(alloc: Global) -> bool {
    let found = expression(alloc, "1?2;");
    let fails = match found.streaming {
        Err(Err::Failure(error)) => {
            error.code == ErrorKind::Precedence && error.input == "?2;" && found.grows
        }
        _ => false,
    };
    let mut holds = fails;
    for (input, wanted, left) in [
        ("1-2-3*4;", -13, ";"),
        ("2^3^2;", 512, ";"),
        ("~2^2;", 4, ";"),
        ("1-;", 1, "-;"),
    ] {
        holds = holds && gives(alloc, input, wanted, left);
    }
    holds
}
