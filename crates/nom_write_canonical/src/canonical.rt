//! Canonical writers.
ghost use Rattle.std.specs.Prelude.{◌≡◌};
ghost use Rattle.nom_write_canonical.specs.Forms.{AcceptsForms, AcceptsItems, IsOneForm};

use nom_traits::input::Items;
use nom_write::writer::{Constant, Writer};

/// A writer of a format with one form for each value.
pub trait Canonical<I: Items>: Writer<I> {
    /// What must hold for the format to be canonical.
    ghost IsCanonical: { Self → Type 0 } = { λ _. Unit {0} };

    /// Does nothing. A value is written through `Writer`.
    #[inline(always)]
    fn canonical() {}

    /// Whatever is accepted is a form of its output.
    ghost accepts_forms: { (p : Self) → IsCanonical p → AcceptsForms I.model (Self.grammar (Self.state p)) (Self.Form p) };

    /// No value has two forms.
    ghost one_form: { (p : Self) → IsCanonical p → (v : Self.Output) → IsOneForm I.Item.IsValue (Self.Form p v) };
}

/// A constant that accepts its items and no others.
pub trait CanonicalConstant<I: Items>: Constant<I> {
    /// Nothing is accepted but the items.
    ghost accepts_items: { (p : Self) → AcceptsItems I.model (Self.grammar (Self.state p)) (Self.items p) };
}
