//! Messages as they are typed, one in a line.
ghost use Rattle.std.specs.Prelude.{◌≡◌, ◌-◌, false, Err, length};
ghost use Rattle.nom_error.specs.declared.answer.Err.TheVariants as Answer;
ghost use Rattle.nom.specs.grammars.Bytes.{Parses};
ghost use Rattle.nom_messages_run.specs.Typed.{typed_of};

use crate::protocol::{Message, close, ping, text};
use nom::branch::alt;
use nom::bytes::{tag, take};
use nom::character::u32;
use nom::combinator::{all_consuming, map};
use nom::error::Error;
use nom::sequence::{pair, preceded};
use nom::{IResult, Parser};

/// Returns the message that a line stands for, which is all of it:
///
/// ```text
/// line = 'ping ' number | 'text ' bytes | 'close'
/// ```
///
/// The number is decimal and fits a `u32`. The bytes are all that is left, as they are. Another line is refused. It takes
/// no memory.
pub fn typed<'a>(line: &'a [u8]) -> IResult<&'a [u8], Message<'a>>
    ensures shown { Parses (typed_of (length line.now - 5)) false line.entry result }
    ensures memory { result ≡ Err Answer.OutOfMemory → ⊥ }
{
    let count = line.len().saturating_sub(5);
    let number = pair(tag::<_, _, Error<&[u8]>>(&b"ping "[..]), u32());
    let bytes = preceded(tag::<_, _, Error<&[u8]>>(&b"text "[..]), take(count));
    let leave = tag::<_, _, Error<&[u8]>>(&b"close"[..]);
    all_consuming(alt((map(number, ping), map(bytes, text), map(leave, close)))).parse_complete(
        line,
    )
}
