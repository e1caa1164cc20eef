//! The expectations of a report.
ghost use Rattle.std.specs.Prelude.{◌≡◌, map};
ghost use Rattle.nom_report.specs.Wanted.{seen};
ghost use Rattle.nom_report.specs.Kept.{AddsExpectation, Joins, just, kept};

use crate::expectation::{Expected, is_in};
use crate::several::{MOST_EXPECTED, Several};

/// The expectations that fit, and whether there were more. No enum stands around the list, so that a move of
/// a report copies plain fields.
#[derive(Clone, Copy, Debug, PartialEq, Eq)]
pub struct Expectations {
    several: Several,
    more: bool,
}

impl Expectations {
    #[inline(always)]
    pub fn one(it: Expected) -> Expectations
        ensures { kept result ≡ just (seen it) }
    {
        Expectations {
            several: Several::one(it),
            more: false,
        }
    }

    #[inline(always)]
    pub fn as_slice(&self) -> &[Expected]
        ensures { map seen result.now ≡ (kept self.now).wanted }
    {
        &self.several.items[..self.several.len]
    }

    #[inline(always)]
    pub fn has_more(&self) -> bool
        ensures { result ≡ self.now.more }
    {
        self.more
    }

    // AddsExpectation one, unless it is there.
    #[inline(always)]
    pub fn add(&mut self, it: Expected)
        ensures { AddsExpectation (kept self.old) (seen it) (kept self.new) }
    {
        if is_in(self.as_slice(), &it) {
            return;
        }
        if self.several.len < MOST_EXPECTED {
            self.several.push(it);
        } else {
            self.more = true;
        }
    }

    // AddsExpectation those of another, which were wanted at the same place.
    #[inline(always)]
    pub fn join(&mut self, other: &Expectations)
        ensures { Joins (kept self.old) (kept other.now) (kept self.new) }
    {
        for it in other.as_slice() {
            self.add(*it);
        }
        self.more = self.more || other.more;
    }
}
