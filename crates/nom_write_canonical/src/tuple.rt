//! Tuples of two to eight members, in sequence.
ghost use Rattle.nom_write_canonical.specs.laws.SequenceForms.{both_one, pair_accepts, tuple_accepts};

use crate::canonical::Canonical;
use nom_traits::input::Items;

impl<I: Items, P: Canonical<I>, Q: Canonical<I, Error = P::Error>> Canonical<I> for (P, Q) {
    ghost IsCanonical = { λ p. P.IsCanonical p.0 × Q.IsCanonical p.1 };

    ghost accepts_forms = { λ p c. tuple_accepts (λ o. (o.0, o.1)) (pair_accepts I.lawful (P.accepts_forms p.0 c.0) (Q.accepts_forms p.1 c.1)) };

    ghost one_form = { λ p c v. both_one (P.one_form p.0 c.0 v.0) (Q.one_form p.1 c.1 v.1) };
}

impl<
    I: Items,
    P: Canonical<I>,
    Q: Canonical<I, Error = P::Error>,
    R: Canonical<I, Error = P::Error>,
> Canonical<I> for (P, Q, R) {
    ghost IsCanonical = { λ p. P.IsCanonical p.0 × Q.IsCanonical p.1 × R.IsCanonical p.2 };

    ghost accepts_forms = { λ p c. tuple_accepts (λ o. (o.0, (o.1, o.2))) (pair_accepts I.lawful (P.accepts_forms p.0 c.0) (pair_accepts I.lawful
        (Q.accepts_forms p.1 c.1) (R.accepts_forms p.2 c.2))) };

    ghost one_form = { λ p c v. both_one (P.one_form p.0 c.0 v.0) (both_one (Q.one_form p.1 c.1 v.1) (R.one_form p.2 c.2 v.2)) };
}

impl<
    I: Items,
    P: Canonical<I>,
    Q: Canonical<I, Error = P::Error>,
    R: Canonical<I, Error = P::Error>,
    S: Canonical<I, Error = P::Error>,
> Canonical<I> for (P, Q, R, S) {
    ghost IsCanonical = { λ p. P.IsCanonical p.0 × Q.IsCanonical p.1 × R.IsCanonical p.2 × S.IsCanonical p.3 };

    ghost accepts_forms = { λ p c. tuple_accepts (λ o. (o.0, (o.1, (o.2, o.3)))) (pair_accepts I.lawful (P.accepts_forms p.0 c.0) (pair_accepts I.lawful
        (Q.accepts_forms p.1 c.1) (pair_accepts I.lawful (R.accepts_forms p.2 c.2) (S.accepts_forms p.3 c.3)))) };

    ghost one_form = { λ p c v. both_one (P.one_form p.0 c.0 v.0) (both_one (Q.one_form p.1 c.1 v.1) (both_one (R.one_form p.2 c.2 v.2) (S.one_form p.3 c.3
        v.3))) };
}

impl<
    I: Items,
    P: Canonical<I>,
    Q: Canonical<I, Error = P::Error>,
    R: Canonical<I, Error = P::Error>,
    S: Canonical<I, Error = P::Error>,
    T: Canonical<I, Error = P::Error>,
> Canonical<I> for (P, Q, R, S, T) {
    ghost IsCanonical = { λ p. P.IsCanonical p.0 × Q.IsCanonical p.1 × R.IsCanonical p.2 × S.IsCanonical p.3 × T.IsCanonical p.4 };

    ghost accepts_forms = { λ p c. tuple_accepts (λ o. (o.0, (o.1, (o.2, (o.3, o.4))))) (pair_accepts I.lawful (P.accepts_forms p.0 c.0) (pair_accepts I.lawful
        (Q.accepts_forms p.1 c.1) (pair_accepts I.lawful (R.accepts_forms p.2 c.2) (pair_accepts I.lawful (S.accepts_forms p.3 c.3) (T.accepts_forms p.4
        c.4))))) };

    ghost one_form = { λ p c v. both_one (P.one_form p.0 c.0 v.0) (both_one (Q.one_form p.1 c.1 v.1) (both_one (R.one_form p.2 c.2 v.2) (both_one (S.one_form
        p.3 c.3 v.3) (T.one_form p.4 c.4 v.4)))) };
}

impl<
    I: Items,
    P: Canonical<I>,
    Q: Canonical<I, Error = P::Error>,
    R: Canonical<I, Error = P::Error>,
    S: Canonical<I, Error = P::Error>,
    T: Canonical<I, Error = P::Error>,
    U: Canonical<I, Error = P::Error>,
> Canonical<I> for (P, Q, R, S, T, U) {
    ghost IsCanonical = { λ p. P.IsCanonical p.0 × Q.IsCanonical p.1 × R.IsCanonical p.2 × S.IsCanonical p.3 × T.IsCanonical p.4 × U.IsCanonical p.5 };

    ghost accepts_forms = { λ p c. tuple_accepts (λ o. (o.0, (o.1, (o.2, (o.3, (o.4, o.5)))))) (pair_accepts I.lawful (P.accepts_forms p.0 c.0) (pair_accepts
        I.lawful (Q.accepts_forms p.1 c.1) (pair_accepts I.lawful (R.accepts_forms p.2 c.2) (pair_accepts I.lawful (S.accepts_forms p.3 c.3) (pair_accepts
        I.lawful (T.accepts_forms p.4 c.4) (U.accepts_forms p.5 c.5)))))) };

    ghost one_form = { λ p c v. both_one (P.one_form p.0 c.0 v.0) (both_one (Q.one_form p.1 c.1 v.1) (both_one (R.one_form p.2 c.2 v.2) (both_one (S.one_form
        p.3 c.3 v.3) (both_one (T.one_form p.4 c.4 v.4) (U.one_form p.5 c.5 v.5))))) };
}

impl<
    I: Items,
    P: Canonical<I>,
    Q: Canonical<I, Error = P::Error>,
    R: Canonical<I, Error = P::Error>,
    S: Canonical<I, Error = P::Error>,
    T: Canonical<I, Error = P::Error>,
    U: Canonical<I, Error = P::Error>,
    V: Canonical<I, Error = P::Error>,
> Canonical<I> for (P, Q, R, S, T, U, V) {
    ghost IsCanonical = { λ p. P.IsCanonical p.0 × Q.IsCanonical p.1 × R.IsCanonical p.2 × S.IsCanonical p.3 × T.IsCanonical p.4 × U.IsCanonical p.5 ×
        V.IsCanonical p.6 };

    ghost accepts_forms = { λ p c. tuple_accepts (λ o. (o.0, (o.1, (o.2, (o.3, (o.4, (o.5, o.6))))))) (pair_accepts I.lawful (P.accepts_forms p.0 c.0)
        (pair_accepts I.lawful (Q.accepts_forms p.1 c.1) (pair_accepts I.lawful (R.accepts_forms p.2 c.2) (pair_accepts I.lawful (S.accepts_forms p.3 c.3)
        (pair_accepts I.lawful (T.accepts_forms p.4 c.4) (pair_accepts I.lawful (U.accepts_forms p.5 c.5) (V.accepts_forms p.6 c.6))))))) };

    ghost one_form = { λ p c v. both_one (P.one_form p.0 c.0 v.0) (both_one (Q.one_form p.1 c.1 v.1) (both_one (R.one_form p.2 c.2 v.2) (both_one (S.one_form
        p.3 c.3 v.3) (both_one (T.one_form p.4 c.4 v.4) (both_one (U.one_form p.5 c.5 v.5) (V.one_form p.6 c.6 v.6)))))) };
}

impl<
    I: Items,
    P: Canonical<I>,
    Q: Canonical<I, Error = P::Error>,
    R: Canonical<I, Error = P::Error>,
    S: Canonical<I, Error = P::Error>,
    T: Canonical<I, Error = P::Error>,
    U: Canonical<I, Error = P::Error>,
    V: Canonical<I, Error = P::Error>,
    W: Canonical<I, Error = P::Error>,
> Canonical<I> for (P, Q, R, S, T, U, V, W) {
    ghost IsCanonical = { λ p. P.IsCanonical p.0 × Q.IsCanonical p.1 × R.IsCanonical p.2 × S.IsCanonical p.3 × T.IsCanonical p.4 × U.IsCanonical p.5 ×
        V.IsCanonical p.6 × W.IsCanonical p.7 };

    ghost accepts_forms = { λ p c. tuple_accepts (λ o. (o.0, (o.1, (o.2, (o.3, (o.4, (o.5, (o.6, o.7)))))))) (pair_accepts I.lawful (P.accepts_forms p.0 c.0)
        (pair_accepts I.lawful (Q.accepts_forms p.1 c.1) (pair_accepts I.lawful (R.accepts_forms p.2 c.2) (pair_accepts I.lawful (S.accepts_forms p.3 c.3)
        (pair_accepts I.lawful (T.accepts_forms p.4 c.4) (pair_accepts I.lawful (U.accepts_forms p.5 c.5) (pair_accepts I.lawful (V.accepts_forms p.6 c.6)
        (W.accepts_forms p.7 c.7)))))))) };

    ghost one_form = { λ p c v. both_one (P.one_form p.0 c.0 v.0) (both_one (Q.one_form p.1 c.1 v.1) (both_one (R.one_form p.2 c.2 v.2) (both_one (S.one_form
        p.3 c.3 v.3) (both_one (T.one_form p.4 c.4 v.4) (both_one (U.one_form p.5 c.5 v.5) (both_one (V.one_form p.6 c.6 v.6) (W.one_form p.7 c.7 v.7))))))) };
}
