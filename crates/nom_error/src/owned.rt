//! Errors that own their inputs.
ghost use Rattle.std.specs.Prelude.{◌≡◌, ◌<◌, MatchResult, length, string_bytes, vec_items};
ghost use Rattle.nom_error.specs.Inputs.{IsCloned, IsOwned, IsOwnedPair};

use crate::answer::{Err, OutOfMemory};
use crate::kind::ErrorKind;
use crate::value::Error;
use std::alloc::Allocator;

impl<'a> Error<&'a [u8]> {
    /// Copies the input, and returns the error with the copy. Memory may run out only if the input isn't
    /// empty.
    pub fn cloned<A: Allocator>(self, alloc: A) -> Result<Error<Vec<u8, A>>, OutOfMemory>
        ensures { IsCloned vec_items self.entry result }
    {
        let input = owned_bytes(alloc, self.input)?;
        Ok(Error {
            input,
            code: self.code,
        })
    }
}

impl<'a> Error<&'a str> {
    /// Copies the input, and returns the error with the copy. Memory may run out only if the input isn't
    /// empty.
    pub fn cloned<A: Allocator>(self, alloc: A) -> Result<Error<String<A>>, OutOfMemory>
        ensures { IsCloned string_bytes self.entry result }
    {
        let input = owned_text(alloc, self.input)?;
        Ok(Error {
            input,
            code: self.code,
        })
    }
}

impl<'a, I: Copy> Error<&'a I> {
    /// Returns the error with a copy of the borrowed input.
    pub fn copied(self) -> Error<I>
        ensures { result ≡ record { input = self.entry.input.now; code = self.entry.code } }
    {
        Error {
            input: *self.input,
            code: self.code,
        }
    }
}

impl<'a, I: Copy> Error<&'a mut I> {
    /// Returns the error with a copy of the borrowed input.
    pub fn copied(self) -> Error<I>
        ensures { result ≡ record { input = self.entry.input.now; code = self.entry.code } }
    {
        Error {
            input: *self.input,
            code: self.code,
        }
    }
}

impl<'a> Err<Error<&'a [u8]>> {
    /// Returns the answer with the input of its error owned. Memory may run out only if that input isn't
    /// empty.
    pub fn to_owned<A: Allocator>(self, alloc: A) -> Result<Err<Error<Vec<u8, A>>>, OutOfMemory>
        ensures { IsOwned vec_items self.entry result }
    {
        match self {
            Err::Incomplete(needed) => Ok(Err::Incomplete(needed)),
            Err::Error(error) => Ok(Err::Error(error.cloned(alloc)?)),
            Err::Failure(error) => Ok(Err::Failure(error.cloned(alloc)?)),
            Err::OutOfMemory => Ok(Err::OutOfMemory),
        }
    }
}

impl<'a> Err<Error<&'a str>> {
    /// Returns the answer with the input of its error owned. Memory may run out only if that input isn't
    /// empty.
    pub fn to_owned<A: Allocator>(self, alloc: A) -> Result<Err<Error<String<A>>>, OutOfMemory>
        ensures { IsOwned string_bytes self.entry result }
    {
        match self {
            Err::Incomplete(needed) => Ok(Err::Incomplete(needed)),
            Err::Error(error) => Ok(Err::Error(error.cloned(alloc)?)),
            Err::Failure(error) => Ok(Err::Failure(error.cloned(alloc)?)),
            Err::OutOfMemory => Ok(Err::OutOfMemory),
        }
    }
}

impl<'a> Err<(&'a [u8], ErrorKind)> {
    /// Returns the answer with the input of its error owned. Memory may run out only if that input isn't
    /// empty.
    pub fn to_owned<A: Allocator>(
        self,
        alloc: A,
    ) -> Result<Err<(Vec<u8, A>, ErrorKind)>, OutOfMemory>
        ensures { IsOwnedPair vec_items self.entry result }
    {
        match self {
            Err::Incomplete(needed) => Ok(Err::Incomplete(needed)),
            Err::Error((input, kind)) => Ok(Err::Error((owned_bytes(alloc, input)?, kind))),
            Err::Failure((input, kind)) => Ok(Err::Failure((owned_bytes(alloc, input)?, kind))),
            Err::OutOfMemory => Ok(Err::OutOfMemory),
        }
    }
}

impl<'a> Err<(&'a str, ErrorKind)> {
    /// Returns the answer with the input of its error owned. Memory may run out only if that input isn't
    /// empty.
    pub fn to_owned<A: Allocator>(
        self,
        alloc: A,
    ) -> Result<Err<(String<A>, ErrorKind)>, OutOfMemory>
        ensures { IsOwnedPair string_bytes self.entry result }
    {
        match self {
            Err::Incomplete(needed) => Ok(Err::Incomplete(needed)),
            Err::Error((input, kind)) => Ok(Err::Error((owned_text(alloc, input)?, kind))),
            Err::Failure((input, kind)) => Ok(Err::Failure((owned_text(alloc, input)?, kind))),
            Err::OutOfMemory => Ok(Err::OutOfMemory),
        }
    }
}

fn owned_bytes<A: Allocator>(alloc: A, bytes: &[u8]) -> Result<Vec<u8, A>, OutOfMemory>
    ensures { MatchResult result (λ v. v.items ≡ bytes.now) (λ _. 0 < length bytes.now) }
{
    let mut owned = Vec::new(alloc);
    match owned.extend_from_slice(bytes) {
        Ok(()) => Ok(owned),
        Err(_) => Err(OutOfMemory),
    }
}

fn owned_text<A: Allocator>(alloc: A, text: &str) -> Result<String<A>, OutOfMemory>
    ensures { MatchResult result (λ s. string_bytes s ≡ text.now) (λ _. 0 < length text.now) }
{
    let mut owned = String::new(alloc);
    match owned.push_str(text) {
        Ok(()) => Ok(owned),
        Err(_) => Err(OutOfMemory),
    }
}
