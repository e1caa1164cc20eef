//! Cuts, as words define them.
ghost use Rattle.std.specs.Prelude.{◌≡◌, ◌≢◌, ◌++◌, ◌<◌, ◌≤◌, ℕ, List, [], ◌∷◌, length, map, slice_index_or, IfOk, IfErr, OnErr, MatchBool, MatchOption};
ghost use Rattle.std.specs.Prelude.{string_bytes, vec_capacity, vec_len};
ghost use Rattle.nom_run.specs.Runs.{MatchRunError};
ghost use Rattle.nom_run.specs.Words.{IsDecimalSize, word_number, Numbers, BadWord, StartsWithNumbers};

use crate::error::RunError;
use nom_error::answer::OutOfMemory;
use std::alloc::Allocator;

// The number that a word of one or more decimal digits writes, where it fits.
fn number(word: &str) -> Option<usize>
    ensures { MatchOption result (¬ IsDecimalSize word.now) (λ n. IsDecimalSize word.now × (n ≡ word_number word.now)) }
{
    match word.as_bytes() {
        [b'+', ..] => None,
        _ => word.parse::<usize>().ok(),
    }
}

// Adds a cut. Memory runs out only if there is no room for it.
fn add_cut<A: Allocator>(cuts: &mut Vec<usize, A>, cut: usize) -> Result<(), OutOfMemory>
    ensures added { IfOk result (λ _. cuts.new.items ≡ cuts.old.items ++ (cut ∷ [])) }
    ensures lacks { OnErr result (vec_capacity cuts.old ≤ vec_len cuts.old) }
{
    cuts.push(cut)?;
    Ok(())
}

/// A word, whoever holds its text.
pub(crate) trait Word {
    ghost spelled: { Self → List ℕ };

    fn text(&self) -> &str
        ensures { result.now ≡ spelled self.now };
}

impl<'a> Word for &'a str {
    ghost spelled = { λ w. w.now };

    fn text(&self) -> &str {
        self
    }
}

impl Word for String {
    ghost spelled = { λ w. string_bytes w };

    fn text(&self) -> &str {
        self.as_str()
    }
}

/// Returns the numbers that the words spell.
///
/// The answer is `Usage` if a word isn't one or more decimal digits, doesn't fit, or spells a number below
/// the one before. It is `OutOfMemory` only after a word whose number could be added.
pub fn read_cuts<A: Allocator + Copy>(alloc: A, words: &[&str]) -> Result<Vec<usize, A>, RunError>
    ensures numbers { IfOk result (λ v. Numbers (map (λ w. w.now) words.now) v.items) }
    ensures error { IfErr result (λ e. MatchRunError e ⊥ ⊥ (StartsWithNumbers (map (λ w. w.now) words.now)) (BadWord (map (λ w. w.now) words.now))) }
{
    cuts_of(alloc, words)
}

/// The same, for words of any kind.
pub(crate) fn cuts_of<A: Allocator + Copy, T: Word>(
    alloc: A,
    words: &[T],
) -> Result<Vec<usize, A>, RunError>
    ensures numbers { IfOk result (λ v. Numbers (map T.spelled words.now) v.items) }
    ensures error { IfErr result (λ e. MatchRunError e ⊥ ⊥ (StartsWithNumbers (map T.spelled words.now)) (BadWord (map T.spelled words.now))) }
{
    let mut cuts = Vec::new(alloc);
    let mut floor = 0usize;
    for word in words {
        match number(word.text()) {
            None => return Err(RunError::Usage),
            Some(cut) => {
                if cut < floor {
                    return Err(RunError::Usage);
                }
                match add_cut(&mut cuts, cut) {
                    Ok(()) => floor = cut,
                    Err(_) => return Err(RunError::OutOfMemory),
                }
            }
        }
    }
    Ok(cuts)
}

/// Returns the word at a place.
pub fn word_at(words: &[String], place: usize) -> &str
    requires { place < length words.now }
    ensures { result.now ≡ slice_index_or (map string_bytes words.now) place [] }
{
    words[place].as_str()
}

// Whether two texts are equal.
fn is_same(text: &str, other: &str) -> bool
    ensures { MatchBool result (text.now ≡ other.now) (text.now ≢ other.now) }
{
    text == other
}

/// Returns whether the word at a place is a text.
pub fn is_word(words: &[String], place: usize, text: &str) -> bool
    requires { place < length words.now }
    ensures { MatchBool result (slice_index_or (map string_bytes words.now) place [] ≡ text.now)
        (slice_index_or (map string_bytes words.now) place [] ≢ text.now) }
{
    is_same(word_at(words, place), text)
}
