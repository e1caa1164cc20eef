//! Expectations in words.
ghost use Rattle.std.specs.Prelude.{◌≡◌, ◌<◌, ◌++◌, IfOk, map, string_bytes};
ghost use Rattle.nom_report.specs.Words.{all_expected_text, between_text, char_text, expected_text, kind_text, shown_char};
ghost use Rattle.nom_report.specs.Wanted.{seen};

use crate::expectation::Expected;
use nom_error::answer::OutOfMemory;
use nom_error::kind::ErrorKind;
use std::alloc::Allocator;
use std::fmt::Write;

/// Returns the name of the input that is expected by a parser that refuses with the kind.
///
/// It is a word if there is one, and otherwise the description of the kind.
pub fn kind_name(kind: &ErrorKind) -> &'static str
    ensures { result.now ≡ kind_text kind.now }
{
    match kind {
        ErrorKind::Tag => "fixed text",
        ErrorKind::Alpha => "letter",
        ErrorKind::Digit => "digit",
        ErrorKind::HexDigit => "hexadecimal digit",
        ErrorKind::OctDigit => "octal digit",
        ErrorKind::BinDigit => "binary digit",
        ErrorKind::AlphaNumeric => "letter or digit",
        ErrorKind::Space => "space",
        ErrorKind::MultiSpace => "white space",
        ErrorKind::Eof => "end of input",
        ErrorKind::Char => "character",
        ErrorKind::CrLf => "line end",
        ErrorKind::Float => "number",
        ErrorKind::MapRes => kind.description(),
        ErrorKind::MapOpt => kind.description(),
        ErrorKind::Alt => kind.description(),
        ErrorKind::IsNot => kind.description(),
        ErrorKind::IsA => kind.description(),
        ErrorKind::SeparatedList => kind.description(),
        ErrorKind::SeparatedNonEmptyList => kind.description(),
        ErrorKind::Many0 => kind.description(),
        ErrorKind::Many1 => kind.description(),
        ErrorKind::ManyTill => kind.description(),
        ErrorKind::Count => kind.description(),
        ErrorKind::TakeUntil => kind.description(),
        ErrorKind::LengthValue => kind.description(),
        ErrorKind::TagClosure => kind.description(),
        ErrorKind::LengthValueFn => kind.description(),
        ErrorKind::Switch => kind.description(),
        ErrorKind::TagBits => kind.description(),
        ErrorKind::OneOf => kind.description(),
        ErrorKind::NoneOf => kind.description(),
        ErrorKind::RegexpMatch => kind.description(),
        ErrorKind::RegexpMatches => kind.description(),
        ErrorKind::RegexpFind => kind.description(),
        ErrorKind::RegexpCapture => kind.description(),
        ErrorKind::RegexpCaptures => kind.description(),
        ErrorKind::TakeWhile1 => kind.description(),
        ErrorKind::Complete => kind.description(),
        ErrorKind::Fix => kind.description(),
        ErrorKind::Escaped => kind.description(),
        ErrorKind::EscapedTransform => kind.description(),
        ErrorKind::NonEmpty => kind.description(),
        ErrorKind::ManyMN => kind.description(),
        ErrorKind::Not => kind.description(),
        ErrorKind::Permutation => kind.description(),
        ErrorKind::Verify => kind.description(),
        ErrorKind::TakeTill1 => kind.description(),
        ErrorKind::TakeWhileMN => kind.description(),
        ErrorKind::TooLarge => kind.description(),
        ErrorKind::Many0Count => kind.description(),
        ErrorKind::Many1Count => kind.description(),
        ErrorKind::Satisfy => kind.description(),
        ErrorKind::Fail => kind.description(),
        ErrorKind::Many => kind.description(),
        ErrorKind::Fold => kind.description(),
        ErrorKind::Precedence => kind.description(),
    }
}

/// Returns the character that is shown for `c`.
///
/// A tab is kept. Any other control character is shown as U+FFFD. No source can therefore move the cursor of
/// a terminal.
#[inline]
pub fn shown(c: char) -> char
    ensures { result ≡ shown_char c }
{
    if c == '\t' {
        return c;
    }
    if c.is_control() { '\u{fffd}' } else { c }
}

// Adds a character between backquotes.
fn add_char<A: Allocator + Copy>(out: &mut String<A>, c: char) -> Result<(), OutOfMemory>
    ensures { IfOk result (λ _. string_bytes out.new ≡ string_bytes out.old ++ char_text c) }
{
    match c {
        '\t' => write!(out, "`\\t`")?,
        '\n' => write!(out, "`\\n`")?,
        '\r' => write!(out, "`\\r`")?,
        _ => {
            let c = shown(c);
            write!(out, "`{c}`")?;
        }
    }
    Ok(())
}

/// Adds an expectation: a character between backquotes, the name of a kind, or a label, in its own words.
pub fn add_expected<A: Allocator + Copy>(
    out: &mut String<A>,
    it: &Expected,
) -> Result<(), OutOfMemory>
    ensures { IfOk result (λ _. string_bytes out.new ≡ string_bytes out.old ++ expected_text (seen it.now)) }
{
    match it {
        Expected::Char(c) => add_char(out, *c)?,
        Expected::Kind(kind) => write!(out, "{}", kind_name(kind))?,
        Expected::Label(label) => write!(out, "{label}")?,
    }
    Ok(())
}

// Adds what stands before the item at an index of so many: nothing before the first, ` or ` before the last where no more
// follows, and else a comma.
fn add_between<A: Allocator + Copy>(
    out: &mut String<A>,
    index: usize,
    len: usize,
    more: bool,
) -> Result<(), OutOfMemory>
    requires { index < len }
    ensures { IfOk result (λ _. string_bytes out.new ≡ string_bytes out.old ++ between_text index len more) }
{
    if index == 0 {
        return Ok(());
    }
    if index + 1 == len && !more {
        write!(out, " or ")?;
    } else {
        write!(out, ", ")?;
    }
    Ok(())
}

/// Adds all expectations, and whether there are more. An example is ``expected `]`, digit or a name``.
pub fn add_all_expected<A: Allocator + Copy>(
    out: &mut String<A>,
    items: &[Expected],
    more: bool,
) -> Result<(), OutOfMemory>
    ensures { IfOk result (λ _. string_bytes out.new ≡ string_bytes out.old ++ all_expected_text (map seen items.now) more) }
{
    write!(out, "error: expected ")?;
    for (index, it) in items.iter().enumerate() {
        add_between(out, index, items.len(), more)?;
        add_expected(out, it)?;
    }
    if more {
        write!(out, " or more")?;
    }
    write!(out, "\n")?;
    Ok(())
}
