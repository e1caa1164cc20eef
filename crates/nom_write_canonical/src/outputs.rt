//! Values in the place of outputs, and outputs that pass a test.
ghost use Rattle.nom_internal.specs.Closures.{GivesAt, TakesAt};
ghost use Rattle.nom_write_canonical.specs.laws.CaseForms.{value_accepts, verify_accepts};
ghost use Rattle.nom_write_canonical.specs.laws.SequenceForms.{items_one, one_beside};

use crate::canonical::{Canonical, CanonicalConstant};
use nom_combinator::{Value, Verify};
use nom_traits::input::Items;
use nom_traits::view::Viewed;

impl<I: Items, O: Clone + PartialEq + Viewed, F: CanonicalConstant<I> + Drop> Canonical<I>
    for Value<O, F> {
    ghost accepts_forms = { λ p c. value_accepts (F.grammar (F.state p.parser)) p.value (O.is_infallible p.value) (O.is_clone p.value)
        (F.items p.parser) (F.accepts_items p.parser) };

    ghost one_form = { λ p c v. one_beside (λ xs f. f.1) (items_one (F.items p.parser)) };
}

impl<I: Items, F: Canonical<I> + Drop, G: Fn(&F::Output) -> bool> Canonical<I> for Verify<F, G> {
    ghost IsCanonical = { λ p. F.IsCanonical p.parser };

    ghost accepts_forms = { λ p c. verify_accepts F.Error.errors (TakesAt (G.pre p.test)) (GivesAt (G.post p.test)) (F.accepts_forms p.parser c) };

    ghost one_form = { λ p c v. one_beside (λ xs f. f.1) (F.one_form p.parser c v) };
}
