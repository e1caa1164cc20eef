//! Canonical writers of a length and what stands after it.
ghost use Rattle.std.specs.Prelude.{◌≡◌, false, length};
ghost use Rattle.nom_write_canonical.specs.laws.ListForms.{each_one, held_one, length_count_accepts, length_data_accepts, size_one};
ghost use Rattle.nom_write_canonical.specs.laws.SequenceForms.{both_one};

use crate::canonical::Canonical;
use nom_multi::{LengthCount, LengthData};
use nom_traits::input::Items;
use nom_write::length::OfSize;
use nom_write::unmarked::UnitItems;
use std::alloc::Allocator;

/// A whole number that its size determines.
pub trait CanonicalSize: OfSize {
    /// Numbers of one size are the same.
    ghost one_number: { (a b : Self) → Self.size a ≡ Self.size b → a ≡ b };
}

impl CanonicalSize for u8 {
    ghost one_number = { λ a b e. e };
}

impl CanonicalSize for u16 {
    ghost one_number = { λ a b e. e };
}

impl CanonicalSize for u32 {
    ghost one_number = { λ a b e. e };
}

impl CanonicalSize for u64 {
    ghost one_number = { λ a b e. e };
}

impl CanonicalSize for usize {
    ghost one_number = { λ a b e. e };
}

impl<I: UnitItems, F: Canonical<I, Output: CanonicalSize> + Drop> Canonical<I> for LengthData<F> {
    ghost IsCanonical = { λ p. F.IsCanonical p.parser };

    ghost accepts_forms = { λ p c. length_data_accepts I.lawful F.Error.errors F.Output.size (F.accepts_forms p.parser c) I.lack };

    ghost one_form = { λ p c v. both_one (size_one F.Output.one_number (F.one_form p.parser c) (length (I.model.elements v))) held_one };
}

impl<
    I: Items,
    M: Allocator + Copy,
    F: Canonical<I, Output: CanonicalSize> + Drop,
    G: Canonical<I, Error = F::Error> + Drop,
> Canonical<I> for LengthCount<M, F, G> {
    ghost IsCanonical = { λ p. F.IsCanonical p.length × G.IsCanonical p.parser };

    ghost accepts_forms = { λ p c. length_count_accepts I.lawful F.Error.errors F.Output.size (F.accepts_forms p.length c.0) (G.accepts_forms
        p.parser c.1) };

    ghost one_form = { λ p c v. both_one (size_one F.Output.one_number (F.one_form p.length c.0) (length v.items)) (each_one false (G.one_form
        p.parser c.1) v.items) };
}
