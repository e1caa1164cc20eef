//! The lines of a report.
//!
//! Each function adds one to a text. After `OutOfMemory` the text may hold a part of it.
ghost use Rattle.std.specs.Prelude.{◌≡◌, ◌++◌, ◌/◌, ◌%◌, [], ◌∷◌, IfOk, codes, string_bytes};
ghost use Rattle.std.specs.Fmt.{decimal};
ghost use Rattle.nom_internal.specs.Prelude.{size_of};
ghost use Rattle.nom_run.specs.Texts.{decided_text, digits_text, error_text, failure_text, hex_digit, hex_of, need_text, bytes_text, rest_text};

use nom_error::answer::{Needed, OutOfMemory};
use nom_error::kind::ErrorKind;
use std::alloc::Allocator;
use std::fmt::Write;

/// Adds `decided at` and the index of the cut at which the answer was decided.
///
/// The number of cuts means the whole.
pub fn add_decided<A: Allocator + Copy>(
    text: &mut String<A>,
    index: usize,
) -> Result<(), OutOfMemory>
    ensures { IfOk result (λ _. string_bytes text.new ≡ string_bytes text.old ++ decided_text index) }
{
    write!(text, "decided at {index}\n")?;
    Ok(())
}

/// Adds `rest` and the number of bytes that are left.
pub fn add_rest<A: Allocator + Copy>(text: &mut String<A>, count: usize) -> Result<(), OutOfMemory>
    ensures { IfOk result (λ _. string_bytes text.new ≡ string_bytes text.old ++ rest_text count) }
{
    write!(text, "rest {count}\n")?;
    Ok(())
}

/// Adds `error`, the kind of a refusal, and its offset in bytes.
pub fn add_error<A: Allocator + Copy>(
    text: &mut String<A>,
    kind: ErrorKind,
    offset: usize,
) -> Result<(), OutOfMemory>
    ensures { IfOk result (λ _. string_bytes text.new ≡ string_bytes text.old ++ error_text kind offset) }
{
    let name = kind.description();
    write!(text, "error {name} at {offset}\n")?;
    Ok(())
}

/// Adds `failure`, the kind of a failure, and its offset in bytes.
pub fn add_failure<A: Allocator + Copy>(
    text: &mut String<A>,
    kind: ErrorKind,
    offset: usize,
) -> Result<(), OutOfMemory>
    ensures { IfOk result (λ _. string_bytes text.new ≡ string_bytes text.old ++ failure_text kind offset) }
{
    let name = kind.description();
    write!(text, "failure {name} at {offset}\n")?;
    Ok(())
}

/// Adds `need` and how much more is needed, or `more` if that isn't known.
pub fn add_need<A: Allocator + Copy>(
    text: &mut String<A>,
    needed: Needed,
) -> Result<(), OutOfMemory>
    ensures { IfOk result (λ _. string_bytes text.new ≡ string_bytes text.old ++ need_text (size_of needed)) }
{
    match needed {
        Needed::Unknown => write!(text, "need more\n")?,
        Needed::Size(size) => write!(text, "need {size}\n")?,
    }
    Ok(())
}

// Adds a byte as two digits in base 16.
#[tactic(auto, using(std::proofs::lemmas::Fmt::hex_byte))]
fn add_byte<A: Allocator + Copy>(text: &mut String<A>, byte: u8) -> Result<(), OutOfMemory>
    ensures { IfOk result (λ _. string_bytes text.new ≡ string_bytes text.old ++ (hex_digit (byte / 16) ∷ hex_digit (byte % 16) ∷ [])) }
{
    write!(text, "{byte:02x}")?;
    Ok(())
}

/// Adds each byte as two digits in base 16, lower case.
pub fn add_hex<A: Allocator + Copy>(text: &mut String<A>, bytes: &[u8]) -> Result<(), OutOfMemory>
    ensures { IfOk result (λ _. string_bytes text.new ≡ string_bytes text.old ++ hex_of bytes.now) }
{
    for byte in bytes {
        add_byte(text, *byte)?;
    }
    Ok(())
}

/// Adds a text unchanged.
pub fn add_words<A: Allocator + Copy>(text: &mut String<A>, words: &str) -> Result<(), OutOfMemory>
    ensures { IfOk result (λ _. string_bytes text.new ≡ string_bytes text.old ++ words.now) }
{
    text.push_str(words)?;
    Ok(())
}

// Adds a space and the digits of the bytes, where there are any.
fn add_digits<A: Allocator + Copy>(text: &mut String<A>, bytes: &[u8]) -> Result<(), OutOfMemory>
    ensures { IfOk result (λ _. string_bytes text.new ≡ string_bytes text.old ++ digits_text bytes.now) }
{
    if bytes.is_empty() {
        return Ok(());
    }
    add_words(text, " ")?;
    add_hex(text, bytes)
}

// Adds a name and the count of bytes.
fn add_count<A: Allocator + Copy>(
    text: &mut String<A>,
    name: &str,
    count: usize,
) -> Result<(), OutOfMemory>
    ensures { IfOk result (λ _. string_bytes text.new ≡ string_bytes text.old ++ (name.now ++ decimal count)) }
{
    write!(text, "{name}{count}")?;
    Ok(())
}

/// Adds a line for bytes: their name with the space after it, their count, and the bytes in base 16 if there
/// are any.
pub fn add_bytes<A: Allocator + Copy>(
    text: &mut String<A>,
    name: &str,
    bytes: &[u8],
) -> Result<(), OutOfMemory>
    ensures { IfOk result (λ _. string_bytes text.new ≡ string_bytes text.old ++ bytes_text name.now bytes.now) }
{
    add_count(text, name, bytes.len())?;
    add_digits(text, bytes)?;
    add_words(text, "\n")
}
