//! Settings in sections, as INI files have them.
ghost use Rattle.std.specs.Prelude.{◌≡◌, false};
ghost use Rattle.nom.specs.grammars.Grammar.{Parses};
ghost use Rattle.nom_settings_run.specs.Settings.{in_value, settings_of};

use nom::bytes::{is_not, take_while};
use nom::character::char;
use nom::combinator::{all_consuming, complete, cut, opt};
use nom::error::Error;
use nom::multi::many0;
use nom::sequence::{pair, preceded, terminated};
use nom::{IResult, Input, Parser};
use std::alloc::Allocator;

/// A section: its name, and its settings in order, each a name and a value. All are slices of the input.
pub type Section<I, A> = (I, Vec<(I, I), A>);

/// Returns whether a character may be part of a value.
pub(crate) fn is_value(c: char) -> bool
    ensures { result ≡ in_value c }
{
    c != '\r' && c != '\n'
}

/// The sections of a whole text:
///
/// ```text
/// settings = section*
/// section  = '[' (any character but ']' and the end of a line)+ ']' end setting*
/// setting  = (any character but '[', '=' and the end of a line)+ '=' (any but the end of a line)* end
/// end      = '\r'? '\n'
/// ```
///
/// After a `[`, or the name of a setting, a fault of the grammar is a failure at its place. A line that begins neither is
/// refused with `Eof` at its start.
pub fn settings<A: Allocator + Copy, I: Input<Item = char>>(
    alloc: A,
    input: I,
) -> IResult<I, Vec<Section<I, A>, A>, Error<I>>
    ensures { Parses I.model (settings_of I.model) false input result }
{
    let end_of_header = pair(opt(char('\r')), char('\n'));
    let title = terminated(is_not("]\r\n"), pair(char(']'), end_of_header));
    let open = char::<I, Error<I>>('[');
    let header = preceded(open, cut(title));
    let value = terminated(take_while(is_value), pair(opt(char('\r')), char('\n')));
    let setting = pair(is_not("[=\r\n"), cut(preceded(char('='), value)));
    let section = pair(header, many0(alloc, setting));
    let mut whole = complete(all_consuming(many0(alloc, section)));
    whole.parse_complete(input)
}
