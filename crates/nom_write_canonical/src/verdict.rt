//! Options, refusals that are final, and errors with a name.
ghost use Rattle.nom_write_canonical.specs.laws.CaseForms.{context_accepts, cut_accepts};
ghost use Rattle.nom_write_canonical.specs.laws.ChoiceForms.{opt_accepts, opt_one};

use crate::canonical::Canonical;
use nom_combinator::{Context, Cut, Opt};
use nom_error::outside::ContextError;
use nom_traits::input::Items;

impl<I: Items, F: Canonical<I> + Drop> Canonical<I> for Cut<F> {
    ghost IsCanonical = { λ p. F.IsCanonical p.parser };

    ghost accepts_forms = { λ p c. cut_accepts (F.accepts_forms p.parser c) };

    ghost one_form = { λ p c v. F.one_form p.parser c v };
}

impl<I: Items, F: Canonical<I> + Drop> Canonical<I> for Opt<F> {
    ghost IsCanonical = { λ p. F.IsCanonical p.parser };

    ghost accepts_forms = { λ p c. opt_accepts (F.accepts_forms p.parser c) };

    ghost one_form = { λ p c v. opt_one (F.one_form p.parser c) v };
}

impl<I: Items, F: Canonical<I> + Drop> Canonical<I> for Context<F>
where
    F::Error: ContextError<I>,
{
    ghost IsCanonical = { λ p. F.IsCanonical p.parser };

    ghost accepts_forms = { λ p c. context_accepts F.Error.contexts p.context.now (F.accepts_forms p.parser c) };

    ghost one_form = { λ p c v. F.one_form p.parser c v };
}
