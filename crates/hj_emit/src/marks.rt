ghost use Rattle.std.specs.Prelude.{◌≡◌, ◌==◌, ◌||◌, ◌++◌, ◌-◌, ◌≤◌, length, take, drop};
ghost use Rattle.std.specs.List.{list_any};
ghost use Rattle.csv.specs.Writing.{default_writer, needs_byte, needs_quotes};

use std::simd::prelude::*;

/// What of some bytes decides how they stand in a line.
#[derive(Clone, Copy)]
pub(crate) struct ByteMarks {
    /// One of them is a comma, a quote, a carriage return or a line feed.
    pub(crate) special: bool,
    /// One of them is a quote.
    pub(crate) quote: bool,
}

/// Looks at the bytes of a text, many in one step. Of those between the first and the last ones some are looked at twice, so
/// that none is left over.
#[inline(always)]
pub(crate) fn marks_in(bytes: &[u8]) -> ByteMarks
    ensures special { result.special ≡ needs_quotes default_writer bytes.now }
    ensures quote { result.quote ≡ list_any (λ byte. byte == 34) bytes.now }
{
    let count = bytes.len();
    if count < 4 {
        marks_of_few(bytes)
    } else if count <= 8 {
        marks_of_8(ends_of_4(bytes))
    } else if count <= 16 {
        marks_of_16(ends_of_8(bytes))
    } else if count <= 32 {
        marks_of_ends(bytes)
    } else {
        marks_of_many(bytes)
    }
}

/// Looks at 16 to 32 bytes.
#[inline(always)]
fn marks_of_ends(bytes: &[u8]) -> ByteMarks
    requires { (16 ≤ length bytes.now) × (length bytes.now ≤ 32) }
    ensures special { result.special ≡ needs_quotes default_writer bytes.now }
    ensures quote { result.quote ≡ list_any (λ byte. byte == 34) bytes.now }
{
    let last = bytes.len() - 16;
    let front = marks_of_16(u8x16::from_slice(bytes));
    marks_of_both(front, marks_of_16(u8x16::from_slice(&bytes[last..])))
}

/// Looks at 16 bytes or more.
fn marks_of_many(bytes: &[u8]) -> ByteMarks
    requires { 16 ≤ length bytes.now }
    ensures special { result.special ≡ needs_quotes default_writer bytes.now }
    ensures quote { result.quote ≡ list_any (λ byte. byte == 34) bytes.now }
{
    let last = bytes.len() - 16;
    let mut marks = marks_of_16(u8x16::from_slice(&bytes[last..]));
    let mut at = 0;
    while at < last {
        let next = marks_of_16(u8x16::from_slice(&bytes[at..]));
        marks = marks_of_both(marks, next);
        at += 16;
    }
    marks
}

/// Looks at a few bytes, one by one.
#[inline(always)]
fn marks_of_few(bytes: &[u8]) -> ByteMarks
    ensures special { result.special ≡ needs_quotes default_writer bytes.now }
    ensures quote { result.quote ≡ list_any (λ byte. byte == 34) bytes.now }
{
    let mut marks = ByteMarks {
        special: false,
        quote: false,
    };
    for &byte in bytes {
        marks = marks_with(marks, byte);
    }
    marks
}

/// Returns the marks of some bytes and one more.
#[inline(always)]
fn marks_with(marks: ByteMarks, byte: u8) -> ByteMarks
    ensures special { result.special ≡ (marks.special || needs_byte default_writer byte) }
    ensures quote { result.quote ≡ (marks.quote || byte == 34) }
{
    if !is_special(byte) {
        return marks;
    }
    ByteMarks {
        special: true,
        quote: marks.quote | (byte == b'"'),
    }
}

/// Returns whether a text with this byte needs quotes.
#[inline(always)]
fn is_special(byte: u8) -> bool
    ensures { result ≡ needs_byte default_writer byte }
{
    matches!(byte, b',' | b'"' | b'\r' | b'\n')
}

/// Returns the first 4 bytes and the last 4.
#[inline(always)]
fn ends_of_4(bytes: &[u8]) -> u8x8
    requires { 4 ≤ length bytes.now }
    ensures { result ≡ take 4 bytes.now ++ take 4 (drop (length bytes.now - 4) bytes.now) }
{
    let last = bytes.len() - 4;
    let front = u8x4::from_slice(bytes);
    front.shuffle(u8x4::from_slice(&bytes[last..]), [0, 1, 2, 3, 4, 5, 6, 7])
}

/// Returns the first 8 bytes and the last 8.
#[inline(always)]
fn ends_of_8(bytes: &[u8]) -> u8x16
    requires { 8 ≤ length bytes.now }
    ensures { result ≡ take 8 bytes.now ++ take 8 (drop (length bytes.now - 8) bytes.now) }
{
    let last = bytes.len() - 8;
    let front = u8x8::from_slice(bytes);
    front.shuffle(
        u8x8::from_slice(&bytes[last..]),
        [0, 1, 2, 3, 4, 5, 6, 7, 8, 9, 10, 11, 12, 13, 14, 15],
    )
}

/// Looks at 16 bytes in one step.
#[inline(always)]
fn marks_of_16(lanes: u8x16) -> ByteMarks
    ensures special { result.special ≡ needs_quotes default_writer lanes }
    ensures quote { result.quote ≡ list_any (λ byte. byte == 34) lanes }
{
    let quote = has_16(lanes, b'"');
    ByteMarks {
        special: has_16(lanes, b',') | quote | has_16(lanes, b'\r') | has_16(lanes, b'\n'),
        quote,
    }
}

/// Looks at 8 bytes in one step.
#[inline(always)]
fn marks_of_8(lanes: u8x8) -> ByteMarks
    ensures special { result.special ≡ needs_quotes default_writer lanes }
    ensures quote { result.quote ≡ list_any (λ byte. byte == 34) lanes }
{
    let quote = has_8(lanes, b'"');
    ByteMarks {
        special: has_8(lanes, b',') | quote | has_8(lanes, b'\r') | has_8(lanes, b'\n'),
        quote,
    }
}

/// Returns whether one of the 16 is this byte.
#[inline(always)]
fn has_16(lanes: u8x16, byte: u8) -> bool
    ensures { result ≡ list_any (λ lane. lane == byte) lanes }
{
    lanes.simd_eq(u8x16::splat(byte)).to_bitmask() != 0
}

/// Returns whether one of the 8 is this byte.
#[inline(always)]
fn has_8(lanes: u8x8, byte: u8) -> bool
    ensures { result ≡ list_any (λ lane. lane == byte) lanes }
{
    lanes.simd_eq(u8x8::splat(byte)).to_bitmask() != 0
}

/// Returns the marks of two parts together.
#[inline(always)]
fn marks_of_both(one: ByteMarks, other: ByteMarks) -> ByteMarks
    ensures special { result.special ≡ (one.special || other.special) }
    ensures quote { result.quote ≡ (one.quote || other.quote) }
{
    ByteMarks {
        special: one.special | other.special,
        quote: one.quote | other.quote,
    }
}
