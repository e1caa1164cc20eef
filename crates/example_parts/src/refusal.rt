//! An error type of a user's own: how many tokens were left at a refusal, and why.
ghost use Rattle.std.specs.Prelude.{◌≡◌, length, MatchResult};

use crate::tokens::Tokens;
use nom::OutOfMemory;
use nom::error::{ErrorKind, ParseError};

/// Why a parser of tokens refused. Of two branches the error that stands further on is kept.
#[derive(Clone, Copy, Debug, PartialEq, Eq)]
pub struct Refusal {
    pub left: usize,
    pub kind: ErrorKind,
}

impl ParseError<Tokens<'_>> for Refusal {
    ghost use Rattle.example_parts.specs.Further.{further};
    ghost use Rattle.nom_error.specs.declared.kind.ErrorKind.TheVariants.{Char};

    ghost errors = { record {
      of_kind = λ i k e. e ≡ record { left = length i.tokens.now; kind = k };
      appended = λ _ _ other e. e ≡ other;
      of_char = λ i _ e. e ≡ record { left = length i.tokens.now; kind = Char };
      joined = λ first second e. e ≡ further first second;
      grows = ⊥;
    } };

    fn from_error_kind(input: Tokens<'_>, kind: ErrorKind) -> Result<Self, OutOfMemory> {
        Ok(Refusal {
            left: input.tokens.len(),
            kind,
        })
    }

    fn append(_input: Tokens<'_>, _kind: ErrorKind, other: Self) -> Result<Self, OutOfMemory> {
        Ok(other)
    }

    fn from_char(input: Tokens<'_>, _wanted: char) -> Result<Self, OutOfMemory> {
        Ok(Refusal {
            left: input.tokens.len(),
            kind: ErrorKind::Char,
        })
    }

    fn or(self, other: Self) -> Result<Self, OutOfMemory>
        ensures { MatchResult result (λ e. e ≡ further self other) (λ _. ⊥) }
    {
        if self.left < other.left {
            Ok(self)
        } else {
            Ok(other)
        }
    }
}
