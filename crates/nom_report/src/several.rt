//! Lists of expectations.
ghost use Rattle.std.specs.Prelude.{◌≡◌, ◌<◌, ◌≤◌, ◌++◌, ◌∷◌, [], length, map, take};
ghost use Rattle.nom_report.specs.Wanted.{seen};
ghost use Rattle.nom_report.specs.declared.several.TheConstants.{MOST_EXPECTED};

use crate::expectation::Expected;
use std::alloc::AllocError;
use std::fmt;

/// The maximum number of expectations that a report keeps.
pub const MOST_EXPECTED: usize = 8;

/// A list of the first `len` items. The other items are the character 0, which makes equal lists equal as
/// values.
#[derive(PartialEq, Eq)]
pub struct Several {
    pub items: [Expected; MOST_EXPECTED],
    pub len: usize,
    ghost fits: { len ≤ MOST_EXPECTED },
    ghost room: { length items ≡ MOST_EXPECTED },
}

impl Copy for Several {}

impl Clone for Several {
    fn clone(&self) -> Result<Self, AllocError> {
        Ok(*self)
    }
}

/// Writes the list.
impl fmt::Debug for Several {
    fn fmt<W: fmt::Write>(&self, f: &mut fmt::Formatter<W>) -> fmt::Result {
        write!(f, "{:?}", &self.items[..self.len])
    }
}

impl Several {
    // Each item is written by itself, so that none is where nothing reads it.
    #[inline(always)]
    pub fn one(it: Expected) -> Several
        ensures { map seen (take result.len result.items) ≡ seen it ∷ [] }
    {
        let none = Expected::Char('\0');
        Several {
            items: [it, none, none, none, none, none, none, none],
            len: 1,
        }
    }

    #[inline(always)]
    pub fn push(&mut self, it: Expected)
        requires { self.old.len < MOST_EXPECTED }
        ensures { map seen (take self.new.len self.new.items) ≡ map seen (take self.old.len self.old.items) ++ (seen it ∷ []) }
    {
        self.items[self.len] = it;
        self.len += 1;
    }
}
