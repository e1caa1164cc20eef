//! Permutations.

use crate::nest::Nests;

/// The parser that `permutation` returns: it applies each parser of a tuple once, in any order.
pub type Permutation<List> = OnceEach<<List as Nests>::Nested>;

/// The nested parsers of a tuple.
#[derive(Drop)]
pub struct OnceEach<N> {
    pub members: N,
}
