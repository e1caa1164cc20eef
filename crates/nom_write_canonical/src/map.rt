//! Maps, with a map back.
ghost use Rattle.std.specs.Prelude.{◌≡◌, Ok, Some};
ghost use Rattle.std.specs.Fn.{FnReturnsAt};
ghost use Rattle.nom_write_canonical.specs.laws.CaseForms.{map_back_accepts, map_one, map_opt_back_accepts, map_res_back_accepts};

use crate::canonical::Canonical;
use nom_error::outside::FromExternalError;
use nom_traits::input::Items;
use nom_traits::view::Viewed;
use nom_write::{MapBoth, MapOptBoth, MapResBoth};

/// The closure back must return just the output of which the value was made.
impl<
    I: Items,
    F: Canonical<I> + Drop,
    O: Viewed + Drop,
    G: Fn(F::Output) -> O,
    H: Fn(&O) -> Option<F::Output>,
> Canonical<I> for MapBoth<F, G, H> {
    ghost IsCanonical = { λ p. F.IsCanonical p.map.parser ×
        ((x : F.Output) (v : O) → G.post p.map.map x v → FnReturnsAt H.Fn p.back v (Some x)) ×
        ((v : O) (x y : F.Output) → FnReturnsAt H.Fn p.back v (Some x) → FnReturnsAt H.Fn p.back v (Some y) → x ≡ y) };

    ghost accepts_forms = { λ p c. map_back_accepts (G.pre p.map.map) (G.post p.map.map) (λ v x. FnReturnsAt H.Fn p.back v (Some x)) c.1
        (F.accepts_forms p.map.parser c.0) };

    ghost one_form = { λ p c v. map_one (λ x. FnReturnsAt H.Fn p.back v (Some x)) (c.2 v) (F.one_form p.map.parser c.0) };
}

impl<
    I: Items,
    F: Canonical<I> + Drop,
    O: Viewed + Drop,
    G: Fn(F::Output) -> Option<O>,
    H: Fn(&O) -> Option<F::Output>,
> Canonical<I> for MapOptBoth<F, G, H> {
    ghost IsCanonical = { λ p. F.IsCanonical p.map.parser ×
        ((x : F.Output) (v : O) → G.post p.map.map x (Some v) → FnReturnsAt H.Fn p.back v (Some x)) ×
        ((v : O) (x y : F.Output) → FnReturnsAt H.Fn p.back v (Some x) → FnReturnsAt H.Fn p.back v (Some y) → x ≡ y) };

    ghost accepts_forms = { λ p c. map_opt_back_accepts (G.pre p.map.map) F.Error.errors (G.post p.map.map) (λ v x. FnReturnsAt H.Fn p.back v (Some x)) c.1
        (F.accepts_forms p.map.parser c.0) };

    ghost one_form = { λ p c v. map_one (λ x. FnReturnsAt H.Fn p.back v (Some x)) (c.2 v) (F.one_form p.map.parser c.0) };
}

impl<
    I: Items,
    X: Drop,
    F: Canonical<I> + Drop,
    O: Viewed + Drop,
    G: Fn(F::Output) -> Result<O, X>,
    H: Fn(&O) -> Option<F::Output>,
> Canonical<I> for MapResBoth<F, G, H>
where
    F::Error: FromExternalError<I, X>,
{
    ghost IsCanonical = { λ p. F.IsCanonical p.map.parser ×
        ((x : F.Output) (v : O) → G.post p.map.map x (Ok v) → FnReturnsAt H.Fn p.back v (Some x)) ×
        ((v : O) (x y : F.Output) → FnReturnsAt H.Fn p.back v (Some x) → FnReturnsAt H.Fn p.back v (Some y) → x ≡ y) };

    ghost accepts_forms = { λ p c. map_res_back_accepts (G.pre p.map.map) F.Error.externals (G.post p.map.map) (λ v x. FnReturnsAt H.Fn p.back v (Some x)) c.1
        (F.accepts_forms p.map.parser c.0) };

    ghost one_form = { λ p c v. map_one (λ x. FnReturnsAt H.Fn p.back v (Some x)) (c.2 v) (F.one_form p.map.parser c.0) };
}
