//! Outputs gathered in nested pairs, and their conversion to a tuple.
ghost use Rattle.std.specs.Prelude.{◌≡◌, Option, Some, None, refl};

/// The first output.
#[derive(Drop)]
pub struct One<A> {
    pub member: A,
}

/// Nested pairs of outputs, from which a tuple of 1 to 8 is made.
pub trait Flat: Sized {
    type Tuple: Drop;

    ghost flatten: { Self → Self.Tuple };

    /// The nested outputs of a tuple.
    ghost pairs: { Self.Tuple → Self };

    fn flat(self) -> Self::Tuple
        ensures { result ≡ flatten self };

    ghost same: { (v : Self) → pairs (flatten v) ≡ v };
}

/// Flattens outputs that are built.
#[inline(always)]
pub fn made_flat<N: Flat>(nested: Option<N>) -> Option<N::Tuple>
    ensures some { (v : N) → nested ≡ Some v → result ≡ Some (N.flatten v) }
    ensures none { nested ≡ None → result ≡ None }
{
    match nested {
        Some(nested) => Some(nested.flat()),
        None => None,
    }
}

impl<A: Drop> Flat for One<A> {
    type Tuple = (A,);

    ghost flatten = { λ p. record { 0 = p.member } };

    ghost pairs = { λ o. record { member = o.0 } };

    #[inline(always)]
    fn flat(self) -> Self::Tuple {
        let One { member: a } = self;
        (a,)
    }

    ghost same = { λ _. refl };
}

impl<A: Drop, B: Drop> Flat for (One<A>, B) {
    type Tuple = (A, B);

    ghost flatten = { λ p. (p.0.member, p.1) };

    ghost pairs = { λ o. (record { member = o.0 }, o.1) };

    #[inline(always)]
    fn flat(self) -> Self::Tuple {
        let (first, b) = self;
        let One { member: a } = first;
        (a, b)
    }

    ghost same = { λ _. refl };
}

impl<A: Drop, B: Drop, C: Drop> Flat for ((One<A>, B), C) {
    type Tuple = (A, B, C);

    ghost flatten = { λ p. (p.0.0.member, p.0.1, p.1) };

    ghost pairs = { λ o. ((record { member = o.0 }, o.1), o.2) };

    #[inline(always)]
    fn flat(self) -> Self::Tuple {
        let ((first, b), c) = self;
        let One { member: a } = first;
        (a, b, c)
    }

    ghost same = { λ _. refl };
}

impl<A: Drop, B: Drop, C: Drop, D: Drop> Flat for (((One<A>, B), C), D) {
    type Tuple = (A, B, C, D);

    ghost flatten = { λ p. (p.0.0.0.member, p.0.0.1, p.0.1, p.1) };

    ghost pairs = { λ o. (((record { member = o.0 }, o.1), o.2), o.3) };

    #[inline(always)]
    fn flat(self) -> Self::Tuple {
        let (((first, b), c), d) = self;
        let One { member: a } = first;
        (a, b, c, d)
    }

    ghost same = { λ _. refl };
}

impl<A: Drop, B: Drop, C: Drop, D: Drop, E: Drop> Flat for ((((One<A>, B), C), D), E) {
    type Tuple = (A, B, C, D, E);

    ghost flatten = { λ p. (p.0.0.0.0.member, p.0.0.0.1, p.0.0.1, p.0.1, p.1) };

    ghost pairs = { λ o. ((((record { member = o.0 }, o.1), o.2), o.3), o.4) };

    #[inline(always)]
    fn flat(self) -> Self::Tuple {
        let ((((first, b), c), d), e) = self;
        let One { member: a } = first;
        (a, b, c, d, e)
    }

    ghost same = { λ _. refl };
}

impl<A: Drop, B: Drop, C: Drop, D: Drop, E: Drop, F: Drop> Flat
    for (((((One<A>, B), C), D), E), F) {
    type Tuple = (A, B, C, D, E, F);

    ghost flatten = { λ p. (p.0.0.0.0.0.member, p.0.0.0.0.1, p.0.0.0.1, p.0.0.1, p.0.1, p.1) };

    ghost pairs = { λ o. (((((record { member = o.0 }, o.1), o.2), o.3), o.4), o.5) };

    #[inline(always)]
    fn flat(self) -> Self::Tuple {
        let (((((first, b), c), d), e), f) = self;
        let One { member: a } = first;
        (a, b, c, d, e, f)
    }

    ghost same = { λ _. refl };
}

impl<A: Drop, B: Drop, C: Drop, D: Drop, E: Drop, F: Drop, G: Drop> Flat
    for ((((((One<A>, B), C), D), E), F), G) {
    type Tuple = (A, B, C, D, E, F, G);

    ghost flatten = { λ p. (p.0.0.0.0.0.0.member, p.0.0.0.0.0.1, p.0.0.0.0.1, p.0.0.0.1, p.0.0.1, p.0.1, p.1) };

    ghost pairs = { λ o. ((((((record { member = o.0 }, o.1), o.2), o.3), o.4), o.5), o.6) };

    #[inline(always)]
    fn flat(self) -> Self::Tuple {
        let ((((((first, b), c), d), e), f), g) = self;
        let One { member: a } = first;
        (a, b, c, d, e, f, g)
    }

    ghost same = { λ _. refl };
}

impl<A: Drop, B: Drop, C: Drop, D: Drop, E: Drop, F: Drop, G: Drop, H: Drop> Flat
    for (((((((One<A>, B), C), D), E), F), G), H) {
    type Tuple = (A, B, C, D, E, F, G, H);

    ghost flatten = { λ p. (p.0.0.0.0.0.0.0.member, p.0.0.0.0.0.0.1, p.0.0.0.0.0.1, p.0.0.0.0.1, p.0.0.0.1, p.0.0.1, p.0.1, p.1) };

    ghost pairs = { λ o. (((((((record { member = o.0 }, o.1), o.2), o.3), o.4), o.5), o.6), o.7) };

    #[inline(always)]
    fn flat(self) -> Self::Tuple {
        let (((((((first, b), c), d), e), f), g), h) = self;
        let One { member: a } = first;
        (a, b, c, d, e, f, g, h)
    }

    ghost same = { λ _. refl };
}
