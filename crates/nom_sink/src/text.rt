//! Texts that characters are written to.
ghost use Rattle.std.specs.Prelude.{◌≡◌, ◌≤◌, ◌<◌, ◌+◌, ◌/◌, ◌++◌, ℕ, length, take, vec_capacity, OnOk, OnErr, IfErr, chars, encode_utf8_all, IsUtf8, true};
ghost use Rattle.std.specs.Str.{is_utf8};
ghost use Rattle.nom_sink.specs.Written.{LacksRoom, Written, moved_behind};
ghost use Rattle.nom_sink.specs.declared.error.WriteError.{WriteError};

use crate::error::WriteError;
use crate::sink::Sink;
use nom_traits::input::Input;
use std::alloc::Allocator;

/// A text that grows by what is written. `TextSink::new` returns it.
#[derive(Drop)]
pub struct TextSink<A: Allocator> {
    bytes: Vec<u8, A>,
    count: usize,
    ghost valid: { is_utf8 bytes.items ≡ true },
    ghost counted: { count ≡ length (chars bytes.items) },
}

/// Adds characters to a text. On an error, it is as it was.
fn add_chars<A: Allocator>(bytes: &mut Vec<u8, A>, items: &[char]) -> Result<(), WriteError>
    requires { IsUtf8 bytes.old.items }
    ensures valid { IsUtf8 bytes.new.items }
    ensures ok { OnOk result (chars bytes.new.items ≡ chars bytes.old.items ++ items.now) }
    ensures err { IfErr result (λ e. (e ≡ WriteError.OutOfMemory) × (bytes.new.items ≡ bytes.old.items)) }
    ensures full { OnErr result ((room : ℕ) × (vec_capacity bytes.old / 4 ≤ room) × (room < length (chars bytes.old.items) + length items.now)) }
    ensures capacity { vec_capacity bytes.old ≤ vec_capacity bytes.new }
{
    let start = bytes.len();
    for item in items {
        let mut form = [0; 4];
        let form = item.encode_utf8(&mut form);
        match bytes.extend_from_slice(form.as_bytes()) {
            Ok(()) => {}
            Err(_) => {
                bytes.truncate(start);
                return Err(WriteError::OutOfMemory);
            }
        }
    }
    Ok(())
}

/// Returns the place after the first `count` characters, or the end if there are fewer.
fn place_after(bytes: &[u8], count: usize) -> usize
    requires { IsUtf8 bytes.now }
    ensures { result ≡ length (encode_utf8_all (take count (chars bytes.now))) }
{
    match str::from_utf8(bytes) {
        Ok(text) => match text.slice_index(count) {
            Ok(place) => place,
            Err(_) => bytes.len(),
        },
        Err(_) => unreachable!(),
    }
}

/// Keeps the first `count` characters.
fn keep_chars<A: Allocator>(bytes: &mut Vec<u8, A>, count: usize)
    requires { IsUtf8 bytes.old.items }
    ensures valid { IsUtf8 bytes.new.items }
    ensures chars { chars bytes.new.items ≡ take count (chars bytes.old.items) }
    ensures capacity { vec_capacity bytes.new ≡ vec_capacity bytes.old }
{
    let place = place_after(bytes.as_slice(), count);
    bytes.truncate(place);
}

/// Moves the characters from `start` up to `middle` behind those that follow them.
fn move_chars<A: Allocator>(bytes: &mut Vec<u8, A>, start: usize, middle: usize)
    requires valid { IsUtf8 bytes.old.items }
    requires start { start ≤ middle }
    ensures valid { IsUtf8 bytes.new.items }
    ensures chars { chars bytes.new.items ≡ moved_behind start middle (chars bytes.old.items) }
    ensures capacity { vec_capacity bytes.old ≤ vec_capacity bytes.new }
{
    let from = place_after(bytes.as_slice(), start);
    let to = place_after(bytes.as_slice(), middle);
    bytes.move_behind(from, to);
}

/// Returns the number of the characters of a text.
#[inline]
pub fn count_chars(text: &str) -> usize
    ensures { result ≡ length (chars text.now) }
{
    text.chars().count()
}

/// Adds the characters of a text. On an error, `out` is as it was.
#[inline]
pub fn add_text<S: Sink<char>>(text: &str, out: &mut S) -> Result<(), WriteError>
    ensures written { Written (λ xs. xs ≡ chars text.now) (LacksRoom (length (chars text.now))) S.model out.old out.new result }
    ensures room { S.model.room out.old ≤ S.model.room out.new }
    ensures loan { S.model.loan out.new ≡ S.model.loan out.old }
{
    let start = out.len();
    for c in text.chars() {
        match out.add(&[c]) {
            Ok(()) => {}
            Err(error) => {
                out.truncate(start);
                return Err(error);
            }
        }
    }
    Ok(())
}

impl<A: Allocator> TextSink<A> {
    ghost use Rattle.nom_sink.specs.Texts.{sink_characters};
    ghost use Rattle.std.specs.Prelude.{string_bytes};

    /// Returns a sink that adds to a text.
    pub fn new(text: String<A>) -> TextSink<A>
        ensures { sink_characters result ≡ chars (string_bytes text) }
    {
        let count = count_chars(text.as_str());
        TextSink {
            bytes: text.into_bytes(),
            count,
        }
    }

    /// Returns the text.
    pub fn into_text(self) -> String<A>
        ensures { chars (string_bytes result) ≡ sink_characters self }
    {
        match String::from_utf8(self.bytes) {
            Ok(text) => text,
            Err(_) => unreachable!(),
        }
    }
}

/// It takes a character for each four bytes of its capacity. Its error is `OutOfMemory`.
impl<A: Allocator> Sink<char> for TextSink<A> {
    ghost use Rattle.nom_sink.specs.Texts.{space_of, sink_characters};
    ghost use Rattle.nom_sink.specs.Written.{no_loan};
    ghost use Rattle.nom_sink.specs.Written.Lack.{OfMemory};

    ghost model = { record { items = sink_characters; room = space_of; lack = OfMemory; loan = no_loan } };

    #[inline(always)]
    fn len(&self) -> usize {
        self.count
    }

    #[inline]
    fn add(&mut self, items: &[char]) -> Result<(), WriteError> {
        let sink = &mut *self;
        match add_chars(&mut sink.bytes, items) {
            Ok(()) => {
                sink.count += items.len();
                Ok(())
            }
            Err(error) => Err(error),
        }
    }

    fn truncate(&mut self, len: usize) {
        let sink = &mut *self;
        if len < sink.count {
            keep_chars(&mut sink.bytes, len);
            sink.count = len;
        }
    }

    fn move_behind(&mut self, start: usize, middle: usize) {
        let sink = &mut *self;
        move_chars(&mut sink.bytes, start, middle);
    }
}
