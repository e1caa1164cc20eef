//! Bit fields of an input of bytes, from a position among its bits on.
ghost use Rattle.std.specs.Prelude.{◌≡◌, ◌<◌, ◌≤◌, ◌+◌, ◌^◌, length, MatchOption};
ghost use Rattle.std.proofs.Common.{take, drop};
ghost use Rattle.nom_internal.specs.Prelude.{bits_model, byte_bits, spelled, spelled_after, IsSuffixOf};
ghost use Rattle.nom_bits.specs.BitRests.{Skips, StandsAfter, SplitsAt};

use nom_traits::input::Input;

/// Returns the input without its first `count` bytes, if there are that many.
#[inline(always)]
pub fn skipped<I: Input<Item = u8>>(input: I, count: usize) -> Option<I>
    ensures { MatchOption result (length (I.model.elements input) < count) (Skips I.model input count) }
{
    match input.slice_index(count) {
        Ok(n) => Some(input.take_from(n)),
        Err(_) => None,
    }
}

/// Returns the rest after `count` bits that begin in the first byte, if there are that many.
#[inline(always)]
fn following<I: Input<Item = u8>>(start: (I, usize), count: usize) -> Option<(I, usize)>
    requires offset { start.1 < 8 }
    requires some { 0 < count }
    requires count { count ≤ 128 }
    ensures { MatchOption result (length ((bits_model I.model).elements start) < count)
        (λ rest. IsSuffixOf (bits_model I.model) start count rest × StandsAfter I.model start count rest) }
{
    let (bytes, offset) = start;
    bytes.known();
    let end = offset + count;
    match skipped(bytes, end / 8) {
        Some(rest) => {
            if end % 8 > 0 && rest.input_len() == 0 {
                None
            } else {
                Some((rest, end % 8))
            }
        }
        None => None,
    }
}

/// The place of a bit field: it starts in the first byte of `start`, and ends before `rest`.
#[derive(Clone, Copy)]
pub struct Field<I> {
    pub start: (I, usize),
    pub rest: (I, usize),
}

/// Returns the place of the next `count` bits, if there are that many.
#[inline(always)]
pub fn next_field<I: Input<Item = u8>>(input: (I, usize), count: usize) -> Option<Field<I>>
    requires { count ≤ 128 }
    ensures { MatchOption result (length ((bits_model I.model).elements input) < count) (λ f. SplitsAt I.model input count f.start f.rest) }
{
    input.0.known();
    if count == 0 {
        Some(Field {
            start: input,
            rest: input,
        })
    } else {
        let (bytes, position) = input;
        match skipped(bytes, position / 8) {
            Some(bytes) => {
                let start = (bytes, position % 8);
                match following(start, count) {
                    Some(rest) => Some(Field { start, rest }),
                    None => None,
                }
            }
            None => None,
        }
    }
}

/// Appends to `value` the next `width` bits of a byte, after its first `passed` bits.
#[inline(always)]
fn extended(value: u128, byte: u8, passed: usize, width: usize) -> u128
    requires within { passed + width ≤ 8 }
    requires fits { spelled_after value (take width (drop passed (byte_bits byte))) < 2 ^ 128 }
    ensures { result ≡ spelled_after value (take width (drop passed (byte_bits byte))) }
{
    let piece = (byte as u16 >> (8 - passed - width)) % (1 << width);
    (value << width) + piece as u128
}

/// Returns the number in the next `count` bits.
#[inline(always)]
pub fn spelling<I: Input<Item = u8>>(start: (I, usize), count: usize) -> u128
    requires count { count ≤ 128 }
    requires within { count ≤ length ((bits_model I.model).elements start) }
    requires offset { 0 < count → start.1 < 8 }
    ensures number { result ≡ spelled (take count ((bits_model I.model).elements start)) }
    ensures range { result < 2 ^ count }
{
    let (bytes, offset) = start;
    let mut value = 0u128;
    let mut left = count;
    let mut passed = offset;
    for byte in bytes.iter_elements() {
        if left == 0 {
            return value;
        }
        let width = left.min(8 - passed);
        value = extended(value, byte, passed, width);
        left = left - width;
        passed = 0;
    }
    value
}
