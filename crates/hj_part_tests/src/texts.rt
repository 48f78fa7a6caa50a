//! Texts of tables, and the bytes that they spell.

use std::alloc::Global;
use std::fmt::Debug;
use std::process::Abort;

/// Splits a case into its bytes and those that are expected for it, on the two sides of an arrow.
pub(crate) fn case(rt: &impl Abort, alloc: Global, line: &str) -> (Vec<u8>, Vec<u8>) {
    let (text, want) = line.split_once(" => ").expect(rt, "a case");
    (spelled(rt, alloc, text), spelled(rt, alloc, want))
}

/// Asserts that what was found for a line of a table is what is expected.
pub(crate) fn same(rt: &impl Abort, line: &str, found: &[u8], want: &[u8]) {
    assert!(rt; found == want, "{line}");
}

/// Asserts that what was found for a line of a table, as it is printed, is what is expected.
pub(crate) fn shows<T: Debug>(rt: &impl Abort, alloc: Global, line: &str, found: &T, want: &[u8]) {
    let found = format!(in alloc; "{found:?}").expect(rt, "memory");
    same(rt, line, found.as_bytes(), want);
}

pub(crate) fn number(rt: &impl Abort, text: &str) -> i64 {
    text.parse::<i64>().expect(rt, "a number")
}

/// Returns the bytes that a text spells: `⏎` is a line feed, `ε` no byte, and `«ff»` the byte of these two digits.
pub(crate) fn spelled(rt: &impl Abort, alloc: Global, text: &str) -> Vec<u8> {
    let text = text.replace(alloc, '⏎', "\n").expect(rt, "memory");
    let text = text.replace(alloc, 'ε', "").expect(rt, "memory");
    let mut bytes = Vec::new(alloc);
    for part in text.split('«') {
        push_part(rt, &mut bytes, part);
    }
    bytes
}

/// Appends the byte that the part begins with, if it does, and the rest of the part.
fn push_part(rt: &impl Abort, bytes: &mut Vec<u8>, part: &str) {
    let behind = match part.split_once('»') {
        Some((digits, behind)) => {
            bytes.push(byte(rt, digits)).expect(rt, "memory");
            behind
        }
        None => part,
    };
    bytes
        .extend_from_slice(behind.as_bytes())
        .expect(rt, "memory");
}

fn byte(rt: &impl Abort, digits: &str) -> u8 {
    u8::from_str_radix(digits, 16).expect(rt, "a byte")
}
