//! Expectations: input that would have been accepted.
ghost use Rattle.std.specs.Prelude.{◌≡◌, ◌↔◌, IsTrue, MatchBool, map};
ghost use Rattle.std.specs.List.{IsAmong};
ghost use Rattle.nom_report.specs.Wanted.{WantedChar, WantedKind, WantedLabel, seen};

use nom_error::kind::ErrorKind;
use nom_error::laws::kinds_are_equal;

/// An expectation: input that would have been accepted at a place.
#[derive(Clone, Copy, Debug, PartialEq, Eq)]
pub enum Expected {
    /// The character.
    Char(char),
    /// The input of a parser that refuses with the kind.
    Kind(ErrorKind),
    /// The input to which `context` gives this name.
    Label(&'static str),
}

#[inline(always)]
fn is_char(it: &Expected, wanted: char) -> bool
    ensures { IsTrue result ↔ (seen it.now ≡ WantedChar wanted) }
{
    match it {
        Expected::Char(c) => *c == wanted,
        Expected::Kind(_) => false,
        Expected::Label(_) => false,
    }
}

#[inline(always)]
fn is_kind(it: &Expected, wanted: ErrorKind) -> bool
    ensures { IsTrue result ↔ (seen it.now ≡ WantedKind wanted) }
{
    match it {
        Expected::Char(_) => false,
        Expected::Kind(kind) => kinds_are_equal(*kind, wanted),
        Expected::Label(_) => false,
    }
}

#[inline(always)]
fn is_label(it: &Expected, wanted: &str) -> bool
    ensures { IsTrue result ↔ (seen it.now ≡ WantedLabel wanted.now) }
{
    match it {
        Expected::Char(_) => false,
        Expected::Kind(_) => false,
        Expected::Label(label) => *label == wanted,
    }
}

/// Returns whether the two expectations are the same.
#[inline(always)]
pub fn is_same(it: &Expected, other: &Expected) -> bool
    ensures { IsTrue result ↔ (seen it.now ≡ seen other.now) }
{
    match other {
        Expected::Char(c) => is_char(it, *c),
        Expected::Kind(kind) => is_kind(it, *kind),
        Expected::Label(label) => is_label(it, label),
    }
}

/// Returns whether an expectation is one of the items.
#[inline(always)]
pub fn is_in(items: &[Expected], it: &Expected) -> bool
    ensures { MatchBool result (IsAmong (map seen items.now) (seen it.now)) (IsAmong (map seen items.now) (seen it.now) → ⊥) }
{
    for item in items {
        if is_same(item, it) {
            return true;
        }
    }
    false
}
