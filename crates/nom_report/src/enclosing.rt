//! Contexts that enclose a place.
ghost use Rattle.std.specs.Prelude.{◌≡◌, ◌<◌, ◌≤◌, ◌++◌, ◌∷◌, [], length, map, take};
ghost use Rattle.nom_report.specs.declared.enclosing.TheConstants.{MOST_ENCLOSING};

use std::alloc::AllocError;
use std::fmt;

/// A context in which a parser had begun to read: its name, and the place where it began, as `Placed` returns
/// it.
#[derive(Clone, Copy, Debug, PartialEq, Eq)]
pub struct Enclosing {
    pub label: &'static str,
    pub place: usize,
}

/// The maximum number of contexts that a report keeps.
pub const MOST_ENCLOSING: usize = 4;

/// A list of the first `len` items. The other items have no name and the place 0, which makes equal lists
/// equal as values.
#[derive(PartialEq, Eq)]
pub struct Contexts {
    pub items: [Enclosing; MOST_ENCLOSING],
    pub len: usize,
    ghost fits: { len ≤ MOST_ENCLOSING },
    ghost room: { length items ≡ MOST_ENCLOSING },
}

impl Copy for Contexts {}

impl Clone for Contexts {
    fn clone(&self) -> Result<Self, AllocError> {
        Ok(*self)
    }
}

/// Writes the list.
impl fmt::Debug for Contexts {
    fn fmt<W: fmt::Write>(&self, f: &mut fmt::Formatter<W>) -> fmt::Result {
        write!(f, "{:?}", &self.items[..self.len])
    }
}

impl Contexts {
    ghost use Rattle.nom_report.specs.Named.{named};

    #[inline(always)]
    pub fn none() -> Contexts
        ensures { map named (take result.len result.items) ≡ [] }
    {
        let none = Enclosing {
            label: "",
            place: 0,
        };
        Contexts {
            items: [none, none, none, none],
            len: 0,
        }
    }

    #[inline(always)]
    pub fn push(&mut self, it: Enclosing)
        requires { self.old.len < MOST_ENCLOSING }
        ensures { map named (take self.new.len self.new.items) ≡ map named (take self.old.len self.old.items) ++ (named it ∷ []) }
    {
        self.items[self.len] = it;
        self.len += 1;
    }
}
