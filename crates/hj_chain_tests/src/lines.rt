//! Lines of tables, and what is found for them.
use hj_msg::Partners;
use std::alloc::Global;
use std::fmt::Debug;
use std::process::Abort;

/// Reads a number.
pub(crate) fn number(rt: &impl Abort, word: &str) -> u64 {
    word.parse::<u64>().expect(rt, "a number")
}

/// Splits a line into a call, and what is wanted of it.
pub(crate) fn halves<'a>(rt: &impl Abort, line: &'a str) -> (&'a str, &'a str) {
    line.split_once(": ").expect(rt, "what is wanted")
}

/// Splits a call into its first word and those behind it.
pub(crate) fn words<'a>(rt: &impl Abort, call: &'a str) -> (&'a str, &'a str) {
    call.split_once(' ').expect(rt, "a second word")
}

/// Holds a text that was found for a line to the one that is wanted.
pub(crate) fn same(rt: &impl Abort, line: &str, found: &str, want: &str) {
    assert!(rt; found == want, "{line}: found {found}");
}

/// Returns a value as it is printed.
pub(crate) fn told<T: Debug>(rt: &impl Abort, alloc: Global, value: &T) -> String {
    format!(in alloc; "{value:?}").expect(rt, "memory")
}

/// Holds a value that was found for a line, as it is printed, to what is wanted.
pub(crate) fn shows<T: Debug>(rt: &impl Abort, alloc: Global, line: &str, found: &T, want: &str) {
    same(rt, line, &told(rt, alloc, found), want);
}

/// Returns the numbers of partners, as they are printed.
pub(crate) fn numbers_of<P>(rt: &impl Abort, alloc: Global, partners: &Partners<P>) -> String {
    let mut numbers = Vec::new(alloc);
    for at in 0..partners.len() {
        let partner = partners.get(at).expect(rt, "a partner");
        numbers.push(partner.no.0).expect(rt, "memory");
    }
    told(rt, alloc, &numbers)
}
