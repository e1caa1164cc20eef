//! Parts in sequence.
ghost use Rattle.nom_write_canonical.specs.laws.SequenceForms.{both_one, items_one, pair_accepts, preceded_accepts, terminated_accepts};

use crate::canonical::{Canonical, CanonicalConstant};
use nom_internal::sequence::And;
use nom_sequence::{Preceded, Terminated};
use nom_traits::input::Items;

impl<I: Items, F: Canonical<I> + Drop, G: Canonical<I, Error = F::Error> + Drop> Canonical<I>
    for And<F, G> {
    ghost IsCanonical = { λ p. F.IsCanonical p.first × G.IsCanonical p.second };

    ghost accepts_forms = { λ p c. pair_accepts I.lawful (F.accepts_forms p.first c.0) (G.accepts_forms p.second c.1) };

    ghost one_form = { λ p c v. both_one (F.one_form p.first c.0 v.0) (G.one_form p.second c.1 v.1) };
}

impl<I: Items, F: CanonicalConstant<I> + Drop, G: Canonical<I, Error = F::Error> + Drop> Canonical<
    I,
> for Preceded<F, G> {
    ghost IsCanonical = { λ p. G.IsCanonical p.second };

    ghost accepts_forms = { λ p c. preceded_accepts I.lawful (F.accepts_items p.first) (G.accepts_forms p.second c) };

    ghost one_form = { λ p c v. both_one (items_one (F.items p.first)) (G.one_form p.second c v) };
}

impl<I: Items, F: Canonical<I> + Drop, G: CanonicalConstant<I, Error = F::Error> + Drop> Canonical<
    I,
> for Terminated<F, G> {
    ghost IsCanonical = { λ p. F.IsCanonical p.first };

    ghost accepts_forms = { λ p c. terminated_accepts I.lawful (F.accepts_forms p.first c) (G.accepts_items p.second) };

    ghost one_form = { λ p c v. both_one (F.one_form p.first c v) (items_one (G.items p.second)) };
}
