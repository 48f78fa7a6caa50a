//! Contents and sinks in memory, draws, bytes and texts.

ghost use Rattle.std.specs.Prelude.{◌≡◌, ◌<◌, ◌≤◌, length};
ghost use Rattle.hj_base.specs.MemOutside.{role_at};
ghost use Rattle.hj_base.specs.Outside.{unbegun, IsOpen, ChangesOnly};
ghost use Rattle.hj_base.specs.declared.outside.Role.TheVariants as role;

use crate::texts::{same, shows, spelled};
use hj_base::{
    Bytes, CoreNo, Gate, Got, Lcg, MemOutside, MemSink, OpenGate, Opened, Outside, Role, Side,
    Sink, TextBytes,
};
use std::alloc::Global;
use std::process::Abort;

/// Pieces, and the answer to the write of each.
const PIECES: &str = "\
abc Wrote(2)
c Failed
c Wrote(1)";

/// Writes the piece on a line, and asserts the answer.
fn writes(rt: &impl Abort, alloc: Global, sink: &mut MemSink, line: &str) {
    let (piece, want) = line.split_once(' ').expect(rt, "an answer");
    assert!(rt; !piece.is_empty());
    let put = sink.write(piece.as_bytes());
    shows(rt, alloc, line, &put, want.as_bytes());
}

#[test]
fn writes_until_a_listed_call(rt: HostRuntime) {
    let mut sink = MemSink::new(rt.alloc(), 2);
    sink.fail_write(2).expect(&rt, "memory");
    for line in PIECES.lines() {
        writes(&rt, rt.alloc(), &mut sink, line);
    }
    same(&rt, "all pieces", sink.bytes(), b"abc");
}

/// Starts a role, and asserts that it is ready.
pub(crate) fn starts<O: Outside>(rt: &impl Abort, outside: &mut O, role: Role, name: &str)
    requires { (O.state outside.old role).phase ≡ unbegun }
    ensures open { IsOpen (O.state outside.new role).phase }
    ensures others { ChangesOnly role (O.state outside.old) (O.state outside.new) }
{
    let opened = outside.start(role, name);
    assert!(rt; matches!(opened, Opened::Ready));
}

/// Starts a role, and asserts that it fails.
pub(crate) fn fails_to_start<O: Outside>(rt: &impl Abort, outside: &mut O, role: Role, name: &str)
    requires { (O.state outside.old role).phase ≡ unbegun }
    ensures { ChangesOnly role (O.state outside.old) (O.state outside.new) }
{
    let opened = outside.start(role, name);
    assert!(rt; matches!(opened, Opened::Failed));
}

/// Reads a role once, and asserts that this word comes: the bytes, `end` or `failed`.
pub(crate) fn reads_once<O: Outside>(
    rt: &impl Abort,
    outside: &mut O,
    role: Role,
    buf: &mut [u8],
    word: &str,
)
    requires open { IsOpen (O.state outside.old role).phase }
    requires room { 0 < length buf.old }
    ensures open { IsOpen (O.state outside.new role).phase }
    ensures others { ChangesOnly role (O.state outside.old) (O.state outside.new) }
{
    let found = match outside.read(role, buf) {
        Got::Bytes(count) => buf.get(..count).expect(rt, "room"),
        Got::End => b"end",
        Got::Failed => b"failed",
    };
    same(rt, "a read", found, word.as_bytes());
}

/// Reads a role again and again, and asserts that these words come.
fn reads<O: Outside>(rt: &impl Abort, outside: &mut O, role: Role, buf: &mut [u8], words: &str)
    requires open { IsOpen (O.state outside.old role).phase }
    requires room { 0 < length buf.old }
{
    for word in words.split(' ') {
        reads_once(rt, outside, role, buf, word);
    }
}

/// Makes an outside of one name, of which a read gives at most `chunk` bytes.
fn one_name(rt: &impl Abort, alloc: Global, chunk: usize) -> MemOutside
    requires { 1 ≤ chunk }
    ensures left { (role_at result role.Left).phase ≡ unbegun }
    ensures right { (role_at result role.Right).phase ≡ unbegun }
    ensures query { (role_at result role.Query).phase ≡ unbegun }
{
    let mut outside = MemOutside::new(alloc, chunk);
    outside.add("ab.csv", b"ab").expect(rt, "memory");
    outside
}

fn reads_to_the_end<O: Outside>(rt: &impl Abort, outside: &mut O)
    requires { (O.state outside.old role.Left).phase ≡ unbegun }
{
    starts(rt, outside, Role::Left, "ab.csv");
    let mut buf = [0; 4];
    reads(rt, outside, Role::Left, &mut buf, "a b end end");
}

/// Puts bytes under a name, in place of those that were there.
fn puts(rt: &impl Abort, outside: &mut MemOutside, bytes: &[u8])
    ensures left { role_at outside.new role.Left ≡ role_at outside.old role.Left }
    ensures right { role_at outside.new role.Right ≡ role_at outside.old role.Right }
{
    outside.add("l", bytes).expect(rt, "memory");
}

/// Starts both sides under one name, whose bytes are replaced in between.
fn reads_what_stood(rt: &impl Abort, outside: &mut MemOutside)
    requires left { (role_at outside.old role.Left).phase ≡ unbegun }
    requires right { (role_at outside.old role.Right).phase ≡ unbegun }
{
    puts(rt, outside, b"old");
    starts(rt, outside, Role::Left, "l");
    puts(rt, outside, b"newer");
    starts(rt, outside, Role::Right, "l");
    reads_each(rt, outside);
}

fn reads_each<O: Outside>(rt: &impl Abort, outside: &mut O)
    requires left { IsOpen (O.state outside.old role.Left).phase }
    requires right { IsOpen (O.state outside.old role.Right).phase }
{
    let mut buf = [0; 9];
    reads_once(rt, outside, Role::Left, &mut buf, "old");
    reads_once(rt, outside, Role::Right, &mut buf, "newer");
}

/// Lists two reads and a start that fail.
fn lists_failures(rt: &impl Abort, outside: &mut MemOutside)
    ensures left { (role_at outside.new role.Left).phase ≡ (role_at outside.old role.Left).phase }
    ensures right { (role_at outside.new role.Right).phase ≡ (role_at outside.old role.Right).phase }
{
    outside.fail_read(Role::Left, 2).expect(rt, "memory");
    outside.fail_read(Role::Left, 4).expect(rt, "memory");
    outside.fail_start(Role::Right).expect(rt, "memory");
}

fn fails_as_listed<O: Outside>(rt: &impl Abort, outside: &mut O)
    requires left { (O.state outside.old role.Left).phase ≡ unbegun }
    requires right { (O.state outside.old role.Right).phase ≡ unbegun }
{
    starts(rt, outside, Role::Left, "ab.csv");
    fails_to_start(rt, outside, Role::Right, "ab.csv");
    let mut buf = [0; 4];
    let words = "a failed b failed end";
    reads(rt, outside, Role::Left, &mut buf, words);
}

/// What is looked at of contents in memory.
#[derive(Clone, Copy)]
enum Look {
    ToTheEnd,
    WhatStood,
    Missing,
    Failures,
}

fn looks(rt: &impl Abort, outside: &mut MemOutside, look: Look)
    requires left { (role_at outside.old role.Left).phase ≡ unbegun }
    requires right { (role_at outside.old role.Right).phase ≡ unbegun }
    requires query { (role_at outside.old role.Query).phase ≡ unbegun }
{
    match look {
        Look::ToTheEnd => reads_to_the_end(rt, outside),
        Look::WhatStood => reads_what_stood(rt, outside),
        Look::Missing => fails_to_start(rt, outside, Role::Query, "q"),
        Look::Failures => {
            lists_failures(rt, outside);
            fails_as_listed(rt, outside);
        }
    }
}

/// Makes an outside of one name, of which a read gives at most `chunk` bytes, and looks at it.
fn run(rt: &impl Abort, alloc: Global, chunk: usize, look: Look)
    requires { 1 ≤ chunk }
{
    let mut outside = one_name(rt, alloc, chunk);
    looks(rt, &mut outside, look);
    drop(outside);
}

#[test]
fn reads_each_byte_to_the_end(rt: HostRuntime) {
    run(&rt, rt.alloc(), 1, Look::ToTheEnd);
}

#[test]
fn starts_with_what_stands(rt: HostRuntime) {
    run(&rt, rt.alloc(), 9, Look::WhatStood);
}

#[test]
fn fails_to_start_a_missing_name(rt: HostRuntime) {
    run(&rt, rt.alloc(), 1, Look::Missing);
}

#[test]
fn fails_where_that_was_listed(rt: HostRuntime) {
    run(&rt, rt.alloc(), 1, Look::Failures);
}

#[test]
fn opens_the_gate(_rt: HostRuntime) {
    OpenGate.pass(CoreNo(1), 2);
}

#[test]
fn names_the_role_of_a_side(rt: HostRuntime) {
    assert!(rt; Side::Left.role() == Role::Left);
    assert!(rt; Side::Right.role() == Role::Right);
}

/// Asserts what the first draw of a seed is.
fn draws(rt: &impl Abort, seed: u64, first: u64) {
    assert!(rt; Lcg::new(seed).draw() == first);
}

#[test]
fn draws_by_the_seed(rt: HostRuntime) {
    draws(&rt, 1, 908_834_774);
    draws(&rt, 2, 1_649_717_740);
}

fn push_all(rt: &impl Abort, bytes: &mut Bytes, more: &[u8]) {
    for byte in more {
        bytes.push(*byte).expect(rt, "memory");
    }
}

#[test]
fn keeps_bytes(rt: HostRuntime) {
    let mut digits = Bytes::new(rt.alloc());
    push_all(&rt, &mut digits, b"42");
    same(&rt, "digits", digits.bytes(), b"42");
    assert!(rt; digits.len() == 2);
    assert!(rt; digits.get(1) == Some(&b'2'));
    assert!(rt; digits.get(2).is_none());
}

const TAKEN: &str = "\
ε
ts
a\u{fc}\u{1f600}
«00»«7f»";

fn text_of(rt: &impl Abort, alloc: Global, bytes: &[u8]) -> TextBytes {
    let text = TextBytes::from_bytes(alloc, bytes).expect(rt, "memory");
    text.expect(rt, "a text")
}

fn takes(rt: &impl Abort, alloc: Global, bytes: &[u8]) {
    let text = text_of(rt, alloc, bytes);
    same(rt, "a text", text.bytes(), bytes);
    assert!(rt; text.len() == bytes.len());
    assert!(rt; text.get(0) == bytes.first());
    assert!(rt; text.get(bytes.len()).is_none());
}

#[test]
fn takes_utf8(rt: HostRuntime) {
    for line in TAKEN.lines() {
        takes(&rt, rt.alloc(), &spelled(&rt, rt.alloc(), line));
    }
}

const REFUSED: &str = "\
«80»
a«ff»
«c3»
«c0»«af»
«ed»«a0»«80»
«f4»«90»«80»«80»";

fn refuses(rt: &impl Abort, alloc: Global, bytes: &[u8]) {
    let text = TextBytes::from_bytes(alloc, bytes).expect(rt, "memory");
    assert!(rt; text.is_none());
}

#[test]
fn refuses_what_is_no_utf8(rt: HostRuntime) {
    for line in REFUSED.lines() {
        refuses(&rt, rt.alloc(), &spelled(&rt, rt.alloc(), line));
    }
}
