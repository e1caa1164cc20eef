//! The value of a term under its prefixes.
ghost use Rattle.nom_precedence.specs.Readings.{Before};
ghost use Rattle.nom_operators.specs.Prefixes.{prefixes_in};
ghost use Rattle.nom_operators.specs.declared.operation.Operation.{Operation};
ghost use Rattle.nom_operators.specs.declared.operation.Operation.TheVariants.{Prefix};

use nom_operators::operation::Operation;
use nom_operators::prefixes::Prefixes;
use std::alloc::Allocator;

/// Returns the value under prefixes, the last of them first.
#[inline(always)]
pub fn under<P: Drop, Q: Drop, B: Drop, O: Drop, A: Allocator, G: Fn(Operation<P, Q, B, O>) -> O>(
    prefixes: Prefixes<P, A>,
    value: O,
    fold: &G,
) -> O
    requires { (x : Operation P Q B O) → G.pre fold.now x }
    ensures { Before (λ p x y. G.post fold.now (Prefix p x) y) (prefixes_in prefixes) value result }
{
    let Prefixes { first, more } = prefixes;
    let inner = under_list(more, value, fold);
    match first {
        Some(prefix) => fold(Operation::Prefix(prefix, inner)),
        None => inner,
    }
}

/// Returns the value under the prefixes of a list, the last of them first.
fn under_list<P: Drop, Q: Drop, B: Drop, O: Drop, A: Allocator, G: Fn(Operation<P, Q, B, O>) -> O>(
    mut prefixes: Vec<P, A>,
    value: O,
    fold: &G,
) -> O
    requires { (x : Operation P Q B O) → G.pre fold.now x }
    ensures { Before (λ p x y. G.post fold.now (Prefix p x) y) prefixes.items value result }
{
    let mut value = value;
    while let Some(prefix) = prefixes.pop() {
        value = fold(Operation::Prefix(prefix, value));
    }
    value
}
