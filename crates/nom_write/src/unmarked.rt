//! Inputs that consist of items alone.
ghost use Rattle.std.specs.Prelude.{◌≡◌, ◌≤◌, ℕ, length};
ghost use Rattle.nom_sink.specs.Written.{LacksRoom, Written};

use nom_sink::error::WriteError;
use nom_sink::sink::Sink;
use nom_sink::text::{add_text, count_chars};
use nom_traits::input::Input;

/// An input that consists of items alone, without a mark. Fronts and rests of it can be written.
pub trait Unmarked: Input {
    /// Returns the number of items.
    fn count_items(&self) -> usize
        ensures { result ≡ length (Self.model.elements self.now) };

    /// Adds the items to `out`. On an error, `out` is as it was.
    fn add_to<S: Sink<Self::Item>>(&self, out: &mut S) -> Result<(), WriteError>
        ensures written { Written (λ xs. xs ≡ Self.model.elements self.now) (LacksRoom (length (Self.model.elements self.now))) S.model
            out.old out.new result }
        ensures room { S.model.room out.old ≤ S.model.room out.new }
        ensures loan { S.model.loan out.new ≡ S.model.loan out.old };

    /// There is one mark.
    ghost one_mark: { (m n : Self.model.Mark) → m ≡ n };
}

/// An unmarked input whose items all have a length of 1, as bytes do.
pub trait UnitItems: Unmarked {
    /// Each item has a length of 1.
    ghost one_each: { (x : Self.Item) → Self.model.item_len x ≡ 1 };
}

impl Unmarked for &[u8] {
    ghost use Rattle.std.specs.Prelude.{refl};

    #[inline(always)]
    fn count_items(&self) -> usize {
        self.len()
    }

    #[inline(always)]
    fn add_to<S: Sink<u8>>(&self, out: &mut S) -> Result<(), WriteError> {
        out.add(self)
    }

    ghost one_mark = { λ m n. refl };
}

impl Unmarked for &str {
    ghost use Rattle.std.specs.Prelude.{refl};

    #[inline]
    fn count_items(&self) -> usize {
        count_chars(self)
    }

    #[inline]
    fn add_to<S: Sink<char>>(&self, out: &mut S) -> Result<(), WriteError> {
        add_text(self, out)
    }

    ghost one_mark = { λ m n. refl };
}

impl UnitItems for &[u8] {
    ghost use Rattle.std.specs.Prelude.{refl};

    ghost one_each = { λ b. refl };
}
