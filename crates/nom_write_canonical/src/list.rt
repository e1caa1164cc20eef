//! Lists.
ghost use Rattle.std.specs.Prelude.{true, false};
ghost use Rattle.nom_write_canonical.specs.laws.ListForms.{count_accepts, each_one, many0_accepts};
ghost use Rattle.nom_write_canonical.specs.laws.SeparatedForms.{separated_list1_accepts, separated_one};
ghost use Rattle.nom_write_canonical.specs.laws.SequenceForms.{one_beside};

use crate::canonical::{Canonical, CanonicalConstant};
use nom_multi::{Count, Many0};
use nom_separated::SeparatedList1;
use nom_traits::input::{Input, Items};
use std::alloc::Allocator;

impl<I: Input, M: Allocator + Copy, G: Canonical<I> + Drop> Canonical<I> for Many0<M, G> {
    ghost IsCanonical = { λ p. G.IsCanonical p.parser };

    ghost accepts_forms = { λ p c. many0_accepts I.lawful G.Error.errors (G.accepts_forms p.parser c) };

    ghost one_form = { λ p c v. each_one true (G.one_form p.parser c) v.items };
}

impl<I: Items, M: Allocator + Copy, G: Canonical<I> + Drop> Canonical<I> for Count<M, G> {
    ghost IsCanonical = { λ p. G.IsCanonical p.parser };

    ghost accepts_forms = { λ p c. count_accepts I.lawful G.Error.errors (G.accepts_forms p.parser c) p.count };

    ghost one_form = { λ p c v. one_beside (λ xs f. f.1) (each_one false (G.one_form p.parser c) v.items) };
}

impl<
    I: Input,
    M: Allocator + Copy,
    C: CanonicalConstant<I> + Drop,
    G: Canonical<I, Error = C::Error> + Drop,
> Canonical<I> for SeparatedList1<M, C, G> {
    ghost IsCanonical = { λ p. G.IsCanonical p.next.second };

    ghost accepts_forms = { λ p c. separated_list1_accepts I.lawful C.Error.errors (C.accepts_items p.next.first) (G.accepts_forms p.next.second c) };

    ghost one_form = { λ p c v. separated_one (C.items p.next.first) (G.one_form p.next.second c) v.items };
}
