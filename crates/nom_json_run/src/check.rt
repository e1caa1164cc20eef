//! The check whether bytes are a JSON text.
//!
//! The open brackets are kept in a list. No nesting is too deep.
ghost use Rattle.std.specs.Prelude.{◌≡◌, ◌==◌, ◌≤◌, ◌∷◌, ◌<◌, if◌then◌else◌, [], IfOk, IfErr, MatchOption, OnErr, false, true, length, drop};
ghost use Rattle.std.specs.Prelude.{reverse, vec_capacity, vec_len};
ghost use Rattle.nom_json_run.specs.Json.{JsonItem, JsonString, JsonValue, begins, closing, first_is, opening};
ghost use Rattle.nom_json_run.specs.Parts.{BeginsWord, is_mark};
ghost use Rattle.nom_json_run.specs.Scans.{EndsNowhere, FailsAt, Scans, ScansFor};
ghost use Rattle.nom_json_run.specs.Walk.{ClosesAll, ClosesAfter, FinishesText, IsKey, IsVerdict, Stepped};

use crate::bracket::{Awaits, Bracket, Fault, Missing, Step};
use crate::scan::{byte_is, number, spaces, string, word};
use nom_error::answer::OutOfMemory;
use std::alloc::Allocator;

#[inline(always)]
fn closing_byte(bracket: Bracket) -> u8
    ensures { result ≡ closing bracket }
{
    match bracket {
        Bracket::Array => b']',
        Bracket::Object => b'}',
    }
}

// The brackets that lie open are a list, the outermost first: `reverse` has the innermost first.
#[inline(always)]
fn push<A: Allocator>(open: &mut Vec<Bracket, A>, bracket: Bracket) -> Result<(), OutOfMemory>
    ensures pushed { IfOk result (λ _. reverse open.new.items ≡ bracket ∷ reverse open.old.items) }
    ensures full { OnErr result (vec_capacity open.old ≤ vec_len open.old) }
{
    match open.push(bracket) {
        Ok(()) => Ok(()),
        Err(_) => Err(OutOfMemory),
    }
}

#[inline(always)]
fn pop<A: Allocator>(open: &mut Vec<Bracket, A>) -> Option<Bracket>
    ensures { MatchOption result ((reverse open.old.items ≡ []) × (reverse open.new.items ≡ []))
        (λ b. reverse open.old.items ≡ b ∷ reverse open.new.items) }
{
    match open.pop() {
        Some(bracket) => Some(bracket),
        None => None,
    }
}

// A text between quotes, and the white space after it.
#[inline(always)]
fn quoted(bytes: &[u8], at: usize) -> Result<usize, Fault>
    requires { begins 34 (drop at bytes.now) ≡ true }
    ensures some { IfOk result (λ n. at < n) }
    ensures scans { Scans bytes.now JsonString at result }
{
    match string(bytes, at + 1) {
        Ok(stop) => Ok(spaces(bytes, stop)),
        Err(fault) => Err(fault),
    }
}

// A word, and the white space after it.
#[inline(always)]
fn named(bytes: &[u8], at: usize, wanted: &'static str) -> Result<usize, Fault>
    requires { BeginsWord wanted.now (drop at bytes.now) }
    ensures some { IfOk result (λ n. at < n) }
    ensures scans { ScansFor bytes.now JsonValue at result }
{
    match word(bytes, at, wanted) {
        Ok(stop) => Ok(spaces(bytes, stop)),
        Err(fault) => Err(fault),
    }
}

// Of a number of which nothing is there, a value is missing.
fn value_fault(at: usize, fault: Fault) -> Fault
    ensures at { result.at ≡ fault.at }
    ensures missing { result.missing ≡ (if fault.at == at then Missing.Value else fault.missing) }
{
    Fault {
        at: fault.at,
        missing: if fault.at == at {
            Missing::Value
        } else {
            fault.missing
        },
    }
}

// A number, and the white space after it; else no value is there.
#[inline(always)]
fn numeric(bytes: &[u8], at: usize) -> Result<usize, Fault>
    requires within { at ≤ length bytes.now }
    requires other { first_is is_mark (drop at bytes.now) ≡ false }
    ensures some { IfOk result (λ n. at < n) }
    ensures scans { ScansFor bytes.now JsonValue at result }
{
    match number(bytes, at) {
        Ok(stop) => Ok(spaces(bytes, stop)),
        Err(fault) => Err(value_fault(at, fault)),
    }
}

// A value without brackets, and the white space after it.
#[inline(always)]
fn scalar(bytes: &[u8], at: usize) -> Result<usize, Fault>
    requires within { at ≤ length bytes.now }
    requires array { begins 91 (drop at bytes.now) ≡ false }
    requires object { begins 123 (drop at bytes.now) ≡ false }
    ensures some { IfOk result (λ n. at < n) }
    ensures scans { ScansFor bytes.now JsonValue at result }
{
    if byte_is(bytes, at, b'"') {
        return quoted(bytes, at);
    }
    if byte_is(bytes, at, b't') {
        return named(bytes, at, "true");
    }
    if byte_is(bytes, at, b'f') {
        return named(bytes, at, "false");
    }
    if byte_is(bytes, at, b'n') {
        return named(bytes, at, "null");
    }
    numeric(bytes, at)
}

// The name of a member, its colon, and the white space after it.
#[inline(always)]
fn member_name(bytes: &[u8], at: usize) -> Result<usize, Fault>
    requires { at ≤ length bytes.now }
    ensures ok { IfOk result (λ n. IsKey bytes.now Bracket.Object at n) }
    ensures err { IfErr result (FailsAt bytes.now (λ i. EndsNowhere (JsonItem Bracket.Object i)) at) }
{
    if !byte_is(bytes, at, b'"') {
        return Err(Fault {
            at,
            missing: Missing::Name,
        });
    }
    match quoted(bytes, at) {
        Ok(colon) => {
            if byte_is(bytes, colon, b':') {
                Ok(spaces(bytes, colon + 1))
            } else {
                Err(Fault {
                    at: colon,
                    missing: Missing::Colon,
                })
            }
        }
        Err(fault) => Err(fault),
    }
}

// Where the value of an item begins.
#[inline(always)]
fn key(bytes: &[u8], at: usize, bracket: Bracket) -> Result<usize, Fault>
    requires { at ≤ length bytes.now }
    ensures ok { IfOk result (λ n. IsKey bytes.now bracket at n) }
    ensures err { IfErr result (FailsAt bytes.now (λ i. EndsNowhere (JsonItem bracket i)) at) }
{
    match bracket {
        Bracket::Array => Ok(at),
        Bracket::Object => member_name(bytes, at),
    }
}

// From an opening bracket on.
#[inline(always)]
fn open_step<A: Allocator>(
    bytes: &[u8],
    at: usize,
    open: &mut Vec<Bracket, A>,
    bracket: Bracket,
) -> Result<Step, OutOfMemory>
    requires { begins (opening bracket) (drop at bytes.now) ≡ true }
    ensures { IfOk result (λ s. Stepped bytes.now (λ i. ClosesAfter (JsonValue i) (reverse open.old.items)) at (reverse open.new.items) s) }
{
    let inside = spaces(bytes, at + 1);
    if byte_is(bytes, inside, closing_byte(bracket)) {
        return Ok(Step::Go(spaces(bytes, inside + 1), Awaits::After));
    }
    push(open, bracket)?;
    match key(bytes, inside, bracket) {
        Ok(stop) => Ok(Step::Go(stop, Awaits::Value)),
        Err(fault) => Ok(Step::Stop(fault)),
    }
}

// From a place on where a value is awaited.
#[inline(always)]
fn value_step<A: Allocator>(
    bytes: &[u8],
    at: usize,
    open: &mut Vec<Bracket, A>,
) -> Result<Step, OutOfMemory>
    requires { at ≤ length bytes.now }
    ensures { IfOk result (λ s. Stepped bytes.now (λ i. ClosesAfter (JsonValue i) (reverse open.old.items)) at (reverse open.new.items) s) }
{
    if byte_is(bytes, at, b'[') {
        return open_step(bytes, at, open, Bracket::Array);
    }
    if byte_is(bytes, at, b'{') {
        return open_step(bytes, at, open, Bracket::Object);
    }
    match scalar(bytes, at) {
        Ok(stop) => Ok(Step::Go(stop, Awaits::After)),
        Err(fault) => Ok(Step::Stop(fault)),
    }
}

// From a place on that follows a value in brackets.
#[inline(always)]
fn inner_step<A: Allocator>(
    bytes: &[u8],
    at: usize,
    open: &mut Vec<Bracket, A>,
    bracket: Bracket,
) -> Result<Step, OutOfMemory>
    requires { at ≤ length bytes.now }
    ensures steps { IfOk result (λ s. Stepped bytes.now (ClosesAll (bracket ∷ reverse open.old.items)) at (reverse open.new.items) s) }
    ensures comma { begins 44 (drop at bytes.now) ≡ false → begins (closing bracket) (drop at bytes.now) ≡ false →
        result ≡ Ok (Step.Stop (record { at = at; missing = Missing.Comma bracket })) }
{
    if byte_is(bytes, at, closing_byte(bracket)) {
        return Ok(Step::Go(spaces(bytes, at + 1), Awaits::After));
    }
    if !byte_is(bytes, at, b',') {
        return Ok(Step::Stop(Fault {
            at,
            missing: Missing::Comma(bracket),
        }));
    }
    push(open, bracket)?;
    let item = spaces(bytes, at + 1);
    match key(bytes, item, bracket) {
        Ok(stop) => Ok(Step::Go(stop, Awaits::Value)),
        Err(fault) => Ok(Step::Stop(fault)),
    }
}

// From a place on that follows a value.
#[inline(always)]
fn after_step<A: Allocator>(
    bytes: &[u8],
    at: usize,
    open: &mut Vec<Bracket, A>,
) -> Result<Step, OutOfMemory>
    requires { at ≤ length bytes.now }
    ensures { IfOk result (λ s. Stepped bytes.now (ClosesAll (reverse open.old.items)) at (reverse open.new.items) s) }
{
    match pop(open) {
        Some(bracket) => inner_step(bytes, at, open, bracket),
        None => {
            if at < bytes.len() {
                Ok(Step::Stop(Fault {
                    at,
                    missing: Missing::End,
                }))
            } else {
                Ok(Step::Done)
            }
        }
    }
}

#[inline(always)]
fn step<A: Allocator>(
    bytes: &[u8],
    at: usize,
    awaits: Awaits,
    open: &mut Vec<Bracket, A>,
) -> Result<Step, OutOfMemory>
    requires { at ≤ length bytes.now }
    ensures { IfOk result (λ s. Stepped bytes.now (FinishesText awaits (reverse open.old.items)) at (reverse open.new.items) s) }
{
    match awaits {
        Awaits::Value => value_step(bytes, at, open),
        Awaits::After => after_step(bytes, at, open),
    }
}

/// Returns `None` if bytes are a JSON value with white space around it, and no more.
///
/// Otherwise it returns the first place where something is missing. Whatever follows the byte there, the bytes
/// are no value, unless a missing word does. Brackets may nest as deep as memory holds them.
pub fn verdict<A: Allocator>(alloc: A, bytes: &[u8]) -> Result<Option<Fault>, OutOfMemory>
    ensures { IfOk result (λ fault. IsVerdict bytes.now fault) }
{
    let mut open = Vec::new(alloc);
    let mut at = spaces(bytes, 0);
    let mut awaits = Awaits::Value;
    'steps: loop {
        match step(bytes, at, awaits, &mut open)? {
            Step::Go(stop, next) => {
                at = stop;
                awaits = next;
            }
            Step::Stop(fault) => return Ok(Some(fault)),
            Step::Done => return Ok(None),
        }
    }
}
