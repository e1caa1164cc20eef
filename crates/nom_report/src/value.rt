//! The error type.
ghost use Rattle.std.specs.Prelude.{◌≡◌, map};
ghost use Rattle.nom_report.specs.Around.{around};
ghost use Rattle.nom_report.specs.Kept.{Joins, kept};
ghost use Rattle.nom_report.specs.Named.{named};
ghost use Rattle.nom_report.specs.Reports.{Wants, report_contexts, report_errors, report_externals};
ghost use Rattle.nom_report.specs.Wanted.{seen};

use crate::around::Around;
use crate::enclosing::Enclosing;
use crate::expectation::Expected;
use crate::list::Expectations;
use crate::place::Placed;
use nom_error::answer::OutOfMemory;
use nom_error::kind::ErrorKind;
use nom_error::outside::{ContextError, FromExternalError};
use nom_error::value::ParseError;

/// An error for people.
///
/// Of a choice it shows the furthest place that a branch reached, the expectations there, and the contexts that
/// enclose it. It takes no memory. If something doesn't fit, it reports that there was more.
///
/// It shows nothing of a refusal that something was accepted after, such as that of the item at which `many0`
/// ends or of the part of `opt`. `many_till` keeps the refusal of its item.
///
/// If nothing was consumed under `context`, the context's name replaces the expectations, for example "a
/// number" in place of `Digit`. Otherwise the context is one that encloses the place.
#[derive(Clone, Copy, Debug, PartialEq, Eq)]
pub struct Report<I> {
    at: I,
    expected: Expectations,
    inside: Around,
}

impl<I> Report<I> {
    // One thing that was wanted.
    #[inline(never)]
    fn new(at: I, wanted: Expected) -> Report<I>
        ensures { Wants at (seen wanted) result }
    {
        Report {
            at,
            expected: Expectations::one(wanted),
            inside: Around::none(),
        }
    }

    /// Returns the expectations, each once, in the order in which they were tried. There is at least one.
    pub fn expected(&self) -> &[Expected]
        ensures { map seen result.now ≡ (kept self.now.expected).wanted }
    {
        self.expected.as_slice()
    }

    /// Returns whether more would have been accepted than `expected` returns.
    pub fn has_more_expected(&self) -> bool
        ensures { result ≡ self.now.expected.more }
    {
        self.expected.has_more()
    }

    /// Returns the contexts around the place, innermost first.
    pub fn inside(&self) -> &[Enclosing]
        ensures { map named result.now ≡ around self.now.inside }
    {
        self.inside.as_slice()
    }

    /// Returns whether there are contexts around those that `inside` returns.
    pub fn has_more_inside(&self) -> bool
        ensures { result ≡ self.now.inside.more }
    {
        self.inside.has_more()
    }
}

impl<I: Copy> Report<I> {
    /// Returns the input at the place of the report, of a choice the furthest that a branch reached.
    pub fn at(&self) -> I
        ensures { result ≡ self.now.at }
    {
        self.at
    }
}

// What two reports want at one place. The call takes copies, so that no loop here holds a report in memory that only moves on.
#[cold]
#[inline(never)]
fn joined<I: Copy>(first: Report<I>, second: Report<I>) -> Report<I>
    ensures at { result.at ≡ first.at }
    ensures expected { Joins (kept first.expected) (kept second.expected) (kept result.expected) }
    ensures inside { result.inside ≡ first.inside }
{
    let mut all = first;
    all.expected.join(&second.expected);
    all
}

impl<I: Placed> ParseError<I> for Report<I> {
    ghost errors = { report_errors I.place };

    #[inline(always)]
    fn from_error_kind(input: I, kind: ErrorKind) -> Result<Self, OutOfMemory> {
        Ok(Report::new(input, Expected::Kind(kind)))
    }

    #[inline(always)]
    fn append(_input: I, _kind: ErrorKind, other: Self) -> Result<Self, OutOfMemory> {
        Ok(other)
    }

    #[inline(always)]
    fn from_char(input: I, wanted: char) -> Result<Self, OutOfMemory> {
        Ok(Report::new(input, Expected::Char(wanted)))
    }

    #[inline(always)]
    fn or(self, other: Self) -> Result<Self, OutOfMemory> {
        let first = self.at.place();
        let second = other.at.place();
        if second < first {
            return Ok(self);
        }
        if first < second {
            return Ok(other);
        }
        let one = self;
        let two = other;
        Ok(joined(one, two))
    }
}

impl<I: Placed> ContextError<I> for Report<I> {
    ghost contexts = { report_contexts I.place };

    #[inline(always)]
    fn add_context(input: I, context: &'static str, other: Self) -> Result<Self, OutOfMemory> {
        let mut error = other;
        let begins = input.place();
        if error.at.place() <= begins {
            error.expected = Expectations::one(Expected::Label(context));
        } else {
            error.inside.add(Enclosing {
                label: context,
                place: begins,
            });
        }
        Ok(error)
    }
}

/// Drops the other error.
impl<I: Placed, X: Drop> FromExternalError<I, X> for Report<I> {
    ghost externals = { report_externals };

    #[inline(always)]
    fn from_external_error(input: I, kind: ErrorKind, _e: X) -> Result<Self, OutOfMemory> {
        Ok(Report::new(input, Expected::Kind(kind)))
    }
}
