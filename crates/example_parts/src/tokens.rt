//! An input type of a user's own: the tokens of a text, as a lexer gave them.
ghost use Rattle.std.specs.Prelude.{◌≡◌};
ghost use Rattle.example_parts.specs.Tokens.{Begins, all_values, same_views, told_by_views, tokens_model, tokens_comparing, tokens_lacking};
ghost use Rattle.example_parts.specs.Tokens.{tokens_lawful, tokens_view};

use nom::{Compare, CompareResult, Input, Items, Needed, Value, Viewed};
use std::iter::{Copied, Enumerate};
use std::slice::Iter;

/// A token.
#[derive(Clone, Copy, Debug, PartialEq, Eq)]
pub enum Token {
    Open,
    Close,
    Comma,
    Word,
}

impl Value for Token {
    ghost IsValue = { λ _. Unit {0} };
}

/// Tokens as an input: each is an item of length 1. The mark says how many tokens stood before them;
/// it stays at the greatest `usize`.
#[derive(Clone, Copy)]
pub struct Tokens<'a> {
    pub tokens: &'a [Token],
    pub offset: usize,
}

impl<'a> Tokens<'a> {
    /// The tokens of a whole text.
    pub fn new(tokens: &'a [Token]) -> Self
        ensures tokens { result.tokens ≡ tokens.entry }
        ensures starts { result.offset ≡ 0 }
    {
        Tokens { tokens, offset: 0 }
    }
}

impl Viewed for Tokens<'_> {
    ghost view = { tokens_view (λ t. t.tokens) (λ t. t.offset) };
}

impl Items for Tokens<'_> {
    type Item = Token;

    ghost model = { tokens_model (λ t. t.tokens) (λ t. t.offset) };

    fn known(self) {
        let _offset = self.offset;
    }

    ghost lawful = { tokens_lawful (λ t. t.tokens) (λ t. t.offset) };

    ghost values = { λ x _. all_values x.tokens.now };
}

impl<'a> Input for Tokens<'a> {
    ghost lack = { tokens_lacking };

    type Iter = Copied<Iter<'a, Token>>;

    type IterIndices = Enumerate<Copied<Iter<'a, Token>>>;

    fn input_len(&self) -> usize {
        self.tokens.len()
    }

    fn take(&self, index: usize) -> Self {
        self.known();
        Tokens {
            tokens: &self.tokens[..index],
            offset: self.offset,
        }
    }

    fn take_from(&self, index: usize) -> Self {
        self.known();
        Tokens {
            tokens: &self.tokens[index..],
            offset: self.offset.saturating_add(index),
        }
    }

    fn slice_index(&self, count: usize) -> Result<usize, Needed> {
        if self.tokens.len() >= count {
            Ok(count)
        } else {
            Err(Needed::new(count - self.tokens.len()))
        }
    }

    fn item_len(&self, _item: &Token) -> usize {
        1
    }

    fn iter_elements(&self) -> Copied<Iter<'a, Token>> {
        self.tokens.iter().copied()
    }

    fn iter_indices(&self) -> Enumerate<Copied<Iter<'a, Token>>> {
        self.iter_elements().enumerate()
    }

    ghost more = { λ _. tt };

    ghost views = { same_views (λ t. t.tokens) (λ t. t.offset) };

    ghost view_injective = { told_by_views (λ t. t.tokens) (λ t. t.offset) };
}

/// A token is a tag: `tag(Token::Comma)`.
impl<'a> Compare<Token> for Tokens<'a> {
    ghost use Rattle.example_parts.specs.declared.tokens.Token.{Token};

    ghost Tag = { Token };

    ghost tag_model = { λ t. t };

    ghost tag_size = { λ _. 1 };

    ghost compares = { Begins };

    ghost compares_no_case = { Begins };

    fn tag_len(_tag: Token) -> usize
        ensures { result ≡ 1 }
    {
        1
    }

    fn compare(&self, tag: Token) -> CompareResult {
        begins(self.tokens, tag)
    }

    fn compare_no_case(&self, tag: Token) -> CompareResult {
        begins(self.tokens, tag)
    }

    ghost comparing = { tokens_comparing (λ t. t.tokens) (λ t. t.offset) };

    ghost comparing_no_case = { tokens_comparing (λ t. t.tokens) (λ t. t.offset) };
}

/// Whether tokens begin with one.
fn begins(tokens: &[Token], tag: Token) -> CompareResult
    ensures { Begins tag tokens.now result }
{
    if tokens.is_empty() {
        return CompareResult::Incomplete;
    }
    if tokens[0] == tag {
        CompareResult::Ok
    } else {
        CompareResult::Error
    }
}
