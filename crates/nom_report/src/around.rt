//! The contexts around a place.
ghost use Rattle.std.specs.Prelude.{◌≡◌, ◌<◌, ◌∷◌, [], IsTrue, false, map};
ghost use Rattle.nom_report.specs.Named.{named};
ghost use Rattle.nom_report.specs.Around.{IsEnclosed, around};

use crate::enclosing::{Contexts, Enclosing, MOST_ENCLOSING};

/// The contexts around a place, innermost first, as many as fit, and whether there were more.
#[derive(Clone, Copy, Debug, PartialEq, Eq)]
pub struct Around {
    contexts: Contexts,
    more: bool,
}

impl Around {
    #[inline(always)]
    pub fn none() -> Around
        ensures none { around result ≡ [] }
        ensures all { result.more ≡ false }
    {
        Around {
            contexts: Contexts::none(),
            more: false,
        }
    }

    #[inline(always)]
    pub fn as_slice(&self) -> &[Enclosing]
        ensures { map named result.now ≡ around self.now }
    {
        &self.contexts.items[..self.contexts.len]
    }

    #[inline(always)]
    pub fn has_more(&self) -> bool
        ensures { result ≡ self.now.more }
    {
        self.more
    }

    // Adds one that lies around the others.
    pub fn add(&mut self, it: Enclosing)
        ensures { IsEnclosed self.old (named it) self.new }
    {
        if self.contexts.len < MOST_ENCLOSING {
            self.contexts.push(it);
        } else {
            self.more = true;
        }
    }
}
