//! Texts of queries.

use hj_query::{Query, parse};
use std::alloc::Global;
use std::process::Abort;

/// Puts these parts one after the other.
pub(crate) fn joined(rt: &impl Abort, alloc: Global, parts: &[&str]) -> String {
    parts.concat(alloc).expect(rt, "memory")
}

/// Reads the query that a text spells.
pub(crate) fn query(rt: &impl Abort, alloc: Global, text: &str) -> Query {
    parse(alloc, text.as_bytes()).expect(rt, "a query")
}

/// Reads the query that these parts spell, one after the other.
pub(crate) fn query_of(rt: &impl Abort, alloc: Global, parts: &[&str]) -> Query {
    query(rt, alloc, &joined(rt, alloc, parts))
}

/// Holds a text that was found to the one that is wanted.
pub(crate) fn same(rt: &impl Abort, what: &str, found: &str, want: &str) {
    assert!(rt; found == want, "of {what}: found {found}");
}

/// Puts a part `count` times one after the other.
pub(crate) fn repeated(rt: &impl Abort, alloc: Global, part: &str, count: usize) -> String {
    part.repeat(alloc, count).expect(rt, "memory")
}

/// Makes a text of `count` times the same part between a beginning and an end.
pub(crate) fn long_text(
    rt: &impl Abort,
    alloc: Global,
    front: &str,
    part: &str,
    count: usize,
    back: &str,
) -> String {
    let middle = repeated(rt, alloc, part, count);
    joined(rt, alloc, &[front, &middle, back])
}
