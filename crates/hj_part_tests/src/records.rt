//! Pieces of a stream, and the fields of a record.

ghost use Rattle.std.specs.Prelude.{◌≡◌, ◌<◌, ◌≤◌, None, false, length, true};

use crate::texts::{case, same, shows};
use hj_record::{Cut, Cutter, Fed, Fields, PieceFault, read_piece, read_piece_into};
use std::alloc::Global;
use std::process::Abort;

/// Reads a piece: tells each field with a bar before it, or why there is none.
fn read(rt: &impl Abort, alloc: Global, piece: &[u8]) -> Vec<u8>
    requires { length piece.now ≤ 65536 }
{
    match read_piece(alloc, piece) {
        Ok(None) => Vec::from_slice(alloc, b"none").expect(rt, "memory"),
        Ok(Some(fields)) => barred(rt, alloc, &fields),
        Err(fault) => fault.to_string(alloc).expect(rt, "memory").into_bytes(),
    }
}

/// Lists these fields, each with a bar before it.
fn barred(rt: &impl Abort, alloc: Global, fields: &Fields) -> Vec<u8> {
    let mut bytes = Vec::new(alloc);
    for at in 0..fields.len() {
        let field = fields.get(at).expect(rt, "a field");
        bytes.push(b'|').expect(rt, "memory");
        bytes.extend_from_slice(field).expect(rt, "memory");
    }
    bytes
}

/// Pieces, and what each reads as.
const PIECES: &str = "\
ε => none
⏎ => none
\r⏎ => none
⏎⏎ => none
1,7⏎ => |1|7
1,7\r⏎ => |1|7
1,a,b => |1|a|b
⏎⏎1,7⏎⏎ => |1|7
, => ||
a,,⏎ => |a||
1,\"a,b\"⏎ => |1|a,b
1,\"a\"\"b\"\r⏎ => |1|a\"b
\"a\r⏎b\",\"\",2 => |a\r⏎b||2
1,\"\"⏎ => |1|
\"\" => |
\"\"\"\"\"\" => |\"\"
\u{FEFF}1,7⏎ => |1|7
\u{FEFF}\u{FEFF}\"1\",7 => |1|7
\u{FEFF}⏎ => none
1\u{FEFF},7 => |1\u{FEFF}|7
\r1,7\r => |1|7
1,a\"b⏎ => |1|a\"b
1,\"a\"b⏎ => |1|ab
1,\"a\"\r => |1|a
1,\"a\"\"\"b,c\"⏎ => |1|a\"b|c\"
1,7⏎2,7⏎ => not one record
1⏎⏎2 => not one record
1,7\r2,7⏎ => not one record
\"1\"\r⏎2 => not one record
\u{FEFF}1\r\r2 => not one record";

fn reads(rt: &impl Abort, alloc: Global, line: &str) {
    let (piece, want) = case(rt, alloc, line);
    assert!(rt; piece.len() <= 65_536);
    let found = read(rt, alloc, &piece);
    same(rt, line, &found, &want);
}

#[test]
fn reads_one_record(rt: HostRuntime) {
    for line in PIECES.lines() {
        reads(&rt, rt.alloc(), line);
    }
}

/// Reads a piece of one field.
fn reads_whole(rt: &impl Abort, fields: &mut Fields, piece: &[u8]) {
    assert!(rt; piece.len() == 65_536);
    assert!(rt; read_piece_into(piece, fields) == Ok(true));
    assert!(rt; fields.len() == 1);
    assert!(rt; fields.get(0) == Some(piece));
}

#[test]
fn reads_the_longest_piece(rt: HostRuntime) {
    let mut fields = Fields::new(rt.alloc());
    let piece = vec![in rt.alloc(); b'x'; 65_536].expect(&rt, "memory");
    reads_whole(&rt, &mut fields, &piece);
}

/// Pieces, the answer to each, and how many fields it has.
const ANSWERS: &str = "\
1,2,3 => (Ok(true), 3)
⏎ => (Ok(false), 0)
\"a\"\"b\",\r⏎ => (Ok(true), 2)
1,2\r3⏎ => (Err(NotOneRecord), 0)
\"\",a\"b,\"c => (Ok(true), 3)
\r\r => (Ok(false), 0)
7 => (Ok(true), 1)";

fn reads_into(rt: &impl Abort, alloc: Global, fields: &mut Fields, line: &str) {
    let (piece, want) = case(rt, alloc, line);
    assert!(rt; piece.len() <= 65_536);
    let answer = read_piece_into(&piece, fields);
    shows(rt, alloc, line, &(answer, fields.len()), &want);
}

#[test]
fn reads_into_the_same_fields(rt: HostRuntime) {
    let mut fields = Fields::new(rt.alloc());
    for line in ANSWERS.lines() {
        reads_into(&rt, rt.alloc(), &mut fields, line);
    }
}

/// Appends a piece and a bar after it.
fn push_piece(rt: &impl Abort, cuts: &mut Vec<u8>, piece: &[u8]) {
    cuts.extend_from_slice(piece).expect(rt, "memory");
    cuts.push(b'|').expect(rt, "memory");
}

/// Appends a fault.
fn push_fault(rt: &impl Abort, alloc: Global, cuts: &mut Vec<u8>, fault: PieceFault) {
    let fault = fault.to_string(alloc).expect(rt, "memory");
    cuts.extend_from_slice(fault.as_bytes())
        .expect(rt, "memory");
}

/// Cuts a stream that comes in portions of this size: lists its whole pieces, a bar after each, up to a fault. Returns whether
/// there is none.
fn cut_portions(
    rt: &impl Abort,
    alloc: Global,
    cutter: &mut Cutter,
    cuts: &mut Vec<u8>,
    stream: &[u8],
    portion: usize,
) -> bool
    requires some { 0 < portion }
    requires going { cutter.old.whole ≡ false }
    requires sound { cutter.old.fault ≡ None }
    ensures { result ≡ true → cutter.new.whole ≡ false }
{
    let mut at = 0;
    while at < stream.len() {
        let most = portion.min(stream.len() - at);
        match cutter.feed(&stream[at..at + most]) {
            Fed::More => at += most,
            Fed::Piece(used) => {
                at += used;
                push_piece(rt, cuts, cutter.piece());
                cutter.clear();
            }
            Fed::Bad(fault) => {
                push_fault(rt, alloc, cuts, fault);
                return false;
            }
        }
    }
    true
}

/// Ends a stream: lists what was left of it.
fn cut_end(rt: &impl Abort, alloc: Global, cutter: &mut Cutter, cuts: &mut Vec<u8>)
    requires { cutter.old.whole ≡ false }
{
    match cutter.end() {
        Fed::More => {}
        Fed::Piece(_) => push_piece(rt, cuts, cutter.piece()),
        Fed::Bad(fault) => push_fault(rt, alloc, cuts, fault),
    }
}

/// Lists the pieces of a stream that comes in portions of this size, a bar after each, and the fault that ends them.
fn cut(rt: &impl Abort, alloc: Global, limit: u64, stream: &[u8], portion: usize) -> Vec<u8>
    requires { 0 < portion }
{
    let mut cutter = Cutter::new(alloc, limit);
    let mut cuts = Vec::new(alloc);
    if cut_portions(rt, alloc, &mut cutter, &mut cuts, stream, portion) {
        cut_end(rt, alloc, &mut cutter, &mut cuts);
    }
    cuts
}

/// Limits of a stream, streams, and their pieces.
const STREAMS: &str = "\
0: ε => ε
1: ⏎ => ⏎|
0: ⏎ => stream too long
11: 1,7⏎2,7⏎3,7 => 1,7⏎|2,7⏎|3,7|
10: 1,7⏎2,7⏎3,7 => 1,7⏎|2,7⏎|stream too long
100: 1,7⏎⏎2,7⏎ => 1,7⏎|⏎|2,7⏎|
100: 1,\"a⏎b\"⏎2,\"\"\"⏎\"⏎ => 1,\"a⏎b\"⏎|2,\"\"\"⏎\"⏎|
100: 1,7⏎2,\"7 => 1,7⏎|open quote
100: 1,\"⏎2,7⏎ => open quote";

/// Cuts the stream on a line in portions of `portion` bytes, and asserts what its pieces are.
fn cuts(rt: &impl Abort, alloc: Global, line: &str, portion: usize)
    requires { 0 < portion }
{
    let (limit, behind) = line.split_once(": ").expect(rt, "a limit");
    let limit = limit.parse::<u64>().expect(rt, "a number");
    let (stream, want) = case(rt, alloc, behind);
    same(rt, line, &cut(rt, alloc, limit, &stream, portion), &want);
}

#[test]
fn cuts_alike_in_any_portions(rt: HostRuntime) {
    for line in STREAMS.lines() {
        cuts(&rt, rt.alloc(), line, 1);
        cuts(&rt, rt.alloc(), line, 3);
        cuts(&rt, rt.alloc(), line, 4096);
    }
}

/// Asserts that the only piece of a stream of `size` bytes has them all, or that there is this fault.
fn holds_to(rt: &impl Abort, alloc: Global, size: usize, limit: u64, fault: Option<&str>) {
    let stream = vec![in alloc; b'x'; size].expect(rt, "memory");
    is_held(rt, alloc, &stream, 1, limit, fault);
    is_held(rt, alloc, &stream, 4096, limit, fault);
    is_held(rt, alloc, &stream, 100_000, limit, fault);
}

/// Asserts that the only piece of a stream that comes in portions of this size has all its bytes, or that there is this fault.
fn is_held(
    rt: &impl Abort,
    alloc: Global,
    stream: &[u8],
    portion: usize,
    limit: u64,
    fault: Option<&str>,
)
    requires { 0 < portion }
{
    let found = cut(rt, alloc, limit, stream, portion);
    match fault {
        Some(fault) => same(rt, fault, &found, fault.as_bytes()),
        None => assert!(rt; found.len().checked_sub(1) == Some(stream.len())),
    }
}

#[test]
fn holds_to_both_limits(rt: HostRuntime) {
    let stream_long = Some("stream too long");
    let piece_long = Some("piece too long");
    holds_to(&rt, rt.alloc(), 65_536, 65_536, None);
    holds_to(&rt, rt.alloc(), 65_537, 65_536, stream_long);
    holds_to(&rt, rt.alloc(), 65_537, 65_537, piece_long);
    holds_to(&rt, rt.alloc(), 70_000, 69_000, piece_long);
    holds_to(&rt, rt.alloc(), 70_000, 1_000, stream_long);
}

/// Portions, and what comes of each: how many bytes of the portion were taken and then a piece, or the fault.
const PORTIONS: &str = "\
1,7⏎2,7⏎3,7 => 4 1,7⏎
2,7⏎3,7 => 4 2,7⏎
3, => ε
7 => stream too long
ε => stream too long";

/// Feeds a portion, and tells what comes of it. A piece is taken out.
fn fed(rt: &impl Abort, alloc: Global, cutter: &mut Cutter, portion: &[u8]) -> Vec<u8>
    requires { cutter.old.whole ≡ false }
    ensures { cutter.new.whole ≡ false }
{
    match cutter.feed(portion) {
        Fed::More => Vec::new(alloc),
        Fed::Piece(used) => taken(rt, alloc, cutter, used),
        Fed::Bad(fault) => fault.to_string(alloc).expect(rt, "memory").into_bytes(),
    }
}

/// Takes a piece out, and tells it behind how many bytes were used.
fn taken(rt: &impl Abort, alloc: Global, cutter: &mut Cutter, used: usize) -> Vec<u8>
    ensures { cutter.new.whole ≡ false }
{
    let mut found = used.to_string(alloc).expect(rt, "memory").into_bytes();
    found.push(b' ').expect(rt, "memory");
    found.extend_from_slice(cutter.piece()).expect(rt, "memory");
    cutter.clear();
    found
}

/// Feeds the portion on a line, and asserts what comes of it.
fn takes(rt: &impl Abort, alloc: Global, cutter: &mut Cutter, line: &str)
    requires { cutter.old.whole ≡ false }
    ensures { cutter.new.whole ≡ false }
{
    let (portion, want) = case(rt, alloc, line);
    let found = fed(rt, alloc, cutter, &portion);
    same(rt, line, &found, &want);
}

#[test]
fn takes_up_to_the_end_of_a_piece(rt: HostRuntime) {
    let mut cutter = Cutter::new(rt.alloc(), 10);
    for line in PORTIONS.lines() {
        takes(&rt, rt.alloc(), &mut cutter, line);
    }
    assert!(rt; cutter.end() == Fed::Bad(PieceFault::StreamLong));
    cutter.clear();
    takes(&rt, rt.alloc(), &mut cutter, "⏎ => stream too long");
}

/// Cuts a portion, of which a whole piece is lent, and tells what comes of it. A piece that was copied is taken out.
fn lent(rt: &impl Abort, alloc: Global, cutter: &mut Cutter, portion: &[u8]) -> Vec<u8>
    requires { cutter.old.whole ≡ false }
    ensures { cutter.new.whole ≡ false }
{
    match cutter.cut(portion) {
        Cut::More => Vec::new(alloc),
        Cut::Lent(used) => format!(in alloc; "lent {used}")
            .expect(rt, "memory")
            .into_bytes(),
        Cut::Piece(used) => taken(rt, alloc, cutter, used),
        Cut::Bad(fault) => fault.to_string(alloc).expect(rt, "memory").into_bytes(),
    }
}

/// Cuts the portion on a line, and asserts what comes of it.
fn lends(rt: &impl Abort, alloc: Global, cutter: &mut Cutter, line: &str)
    requires { cutter.old.whole ≡ false }
    ensures { cutter.new.whole ≡ false }
{
    let (portion, want) = case(rt, alloc, line);
    let found = lent(rt, alloc, cutter, &portion);
    same(rt, line, &found, &want);
}

#[test]
fn lends_whole_pieces(rt: HostRuntime) {
    let mut cutter = Cutter::new(rt.alloc(), 10);
    assert!(rt; cutter.has_end(b"1,7\n2,7\n3,7"));
    lends(&rt, rt.alloc(), &mut cutter, "1,7⏎2,7⏎3,7 => lent 4");
    lends(&rt, rt.alloc(), &mut cutter, "2, => ε");
    assert!(rt; !cutter.has_end(b"7"));
    lends(&rt, rt.alloc(), &mut cutter, "7⏎3,7 => 2 2,7⏎");
    lends(&rt, rt.alloc(), &mut cutter, "3,7 => stream too long");
    lends(&rt, rt.alloc(), &mut cutter, "⏎ => stream too long");
}

/// Appends these fields, which commas separate.
fn push_all(rt: &impl Abort, fields: &mut Fields, text: &str) {
    for field in text.split(',') {
        fields.push(field.as_bytes()).expect(rt, "memory");
    }
}

/// Asserts how many fields there are, and what they are.
fn are(rt: &impl Abort, alloc: Global, fields: &Fields, count: usize, want: &[u8]) {
    assert!(rt; fields.len() == count);
    assert!(rt; fields.get(count).is_none());
    same(rt, "fields", &barred(rt, alloc, fields), want);
}

#[test]
fn keeps_each_field(rt: HostRuntime) {
    let mut fields = Fields::new(rt.alloc());
    push_all(&rt, &mut fields, "a,,bc");
    are(&rt, rt.alloc(), &fields, 3, b"|a||bc");
}

#[test]
fn is_used_again(rt: HostRuntime) {
    let mut fields = Fields::new(rt.alloc());
    push_all(&rt, &mut fields, "a");
    fields.clear();
    are(&rt, rt.alloc(), &fields, 0, b"");
    push_all(&rt, &mut fields, "b");
    are(&rt, rt.alloc(), &fields, 1, b"|b");
}
