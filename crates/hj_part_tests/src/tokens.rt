//! Tokens of query texts, and what they mean.

use crate::texts::{case, number, same};
use hj_lex::{TokenKind, Tokens, lex, number_value, text_value};
use hj_value::TextBytes;
use std::alloc::Global;
use std::fmt::Write;
use std::process::Abort;

/// Writes these tokens as words.
fn described(rt: &impl Abort, alloc: Global, tokens: &Tokens) -> String {
    let mut words = String::new(alloc);
    for at in 0..tokens.len() {
        let token = tokens.get(at).expect(rt, "a token");
        let (kind, from, to) = (token.kind, token.from, token.to);
        write!(words, "{kind:?} {from} {to};").expect(rt, "memory");
    }
    words
}

/// Tells the tokens of a text, or its fault.
fn judgement(rt: &impl Abort, alloc: Global, text: &[u8]) -> String {
    match lex(alloc, text) {
        Ok(tokens) => described(rt, alloc, &tokens),
        Err(fault) => format!(in alloc; "{fault:?}").expect(rt, "memory"),
    }
}

/// Cuts the text on a line into tokens, and asserts what they are.
fn cuts(rt: &impl Abort, alloc: Global, line: &str) {
    let (text, want) = case(rt, alloc, line);
    let found = judgement(rt, alloc, &text);
    same(rt, line, found.as_bytes(), &want);
}

/// Texts, and their tokens or their faults.
const TEXTS: &str = "\
ε => ε
 \t\r⏎ => ε
left => Name 0 4;
  aZ_9 b => Name 2 6;Name 7 8;
0 => Number 0 1;
007  => Number 0 3;
9223372036854775807 => Number 0 19;
'' => Text 0 2;
'a b' => Text 0 5;
'a''b' => Text 0 6;
'''' => Text 0 4;
'a' 'b' => Text 0 3;Text 4 7;
'\u{fc}\u{1f600}' => Text 0 8;
'a'b'c' => Text 0 3;Name 3 4;Text 4 7;
(),. => Sign 0 1;Sign 1 2;Sign 2 3;Sign 3 4;
+- => Sign 0 1;Sign 1 2;
= != < <= => Sign 0 1;Sign 2 4;Sign 5 6;Sign 7 9;
>>= => Sign 0 1;Sign 1 3;
<== => Sign 0 2;Sign 2 3;
l.k<=-1 => Name 0 1;Sign 1 2;Name 2 3;Sign 3 5;Sign 5 6;Number 6 7;
1'a'2 => Number 0 1;Text 1 4;Number 4 5;
! => BadByte(0)
a !b => BadByte(2)
_a => BadByte(0)
a;b => BadByte(1)
\u{b} => BadByte(0)
\"a\" => BadByte(0)
a \u{fc} => BadByte(2)
12ab => BadByte(2)
 12_ => BadByte(3)
9223372036854775808 => NumberRange(0)
 99999999999999999999a => NumberRange(1)
' => OpenText(0)
a 'b => OpenText(2)
'a'' => OpenText(0)
''' => OpenText(0)
! ' => BadByte(0)";

#[test]
fn cuts_tokens(rt: HostRuntime) {
    for line in TEXTS.lines() {
        cuts(&rt, rt.alloc(), line);
    }
}

/// Texts that aren't UTF-8, and their faults.
const ILL_FORMED: &str = "\
'«ff» => OpenText(0)
'a«ff»' => BadByte(2)
'«c3»' => BadByte(1)
'«c3»''«a9»' => BadByte(1)
'a''«80»' => BadByte(4)
'«c0»«af»' => BadByte(1)
'«c3»«a9»«ed»«a0»«80»' => BadByte(3)
'«f4»«90»«80»«80»' => BadByte(1)";

#[test]
fn finds_ill_formed_texts(rt: HostRuntime) {
    for line in ILL_FORMED.lines() {
        cuts(&rt, rt.alloc(), line);
    }
}

/// Cuts a text of one byte, again and again, and asserts how many tokens it has.
fn cuts_long(rt: &impl Abort, alloc: Global, byte: u8, count: usize) {
    let text = vec![in alloc; byte; 65_536].expect(rt, "memory");
    let tokens = lex(alloc, &text).expect(rt, "tokens");
    assert!(rt; tokens.len() == count);
}

#[test]
fn cuts_long_texts(rt: HostRuntime) {
    cuts_long(&rt, rt.alloc(), b'x', 1);
    cuts_long(&rt, rt.alloc(), b'\'', 1);
    cuts_long(&rt, rt.alloc(), b'(', 65_536);
    cuts_long(&rt, rt.alloc(), b' ', 0);
}

/// Returns the value of a text that begins with a number.
fn number_in(rt: &impl Abort, alloc: Global, text: &[u8]) -> i64 {
    let tokens = lex(alloc, text).expect(rt, "tokens");
    match tokens.get(0) {
        Some(token) if token.kind == TokenKind::Number => {
            number_value(&text[token.from..token.to])
        }
        _ => panic!(rt; "no number"),
    }
}

/// Returns the value of a text that begins with a text in quotes.
fn text_in(rt: &impl Abort, alloc: Global, text: &[u8]) -> TextBytes {
    let tokens = lex(alloc, text).expect(rt, "tokens");
    match tokens.get(0) {
        Some(token) if token.kind == TokenKind::Text => {
            text_value(alloc, &text[token.from..token.to]).expect(rt, "memory")
        }
        _ => panic!(rt; "no text"),
    }
}

const NUMBERS: &str = "\
0 => 0
007 => 7
1) => 1
9223372036854775807 => 9223372036854775807";

/// Asserts that the text on a line begins with the number on it.
fn reads_number(rt: &impl Abort, alloc: Global, line: &str) {
    let (text, want) = line.split_once(" => ").expect(rt, "a case");
    assert!(rt; number_in(rt, alloc, text.as_bytes()) == number(rt, want));
}

#[test]
fn reads_numbers(rt: HostRuntime) {
    for line in NUMBERS.lines() {
        reads_number(&rt, rt.alloc(), line);
    }
}

const QUOTED: &str = "\
'' => ε
'a b'c => a b
'a''b' => a'b
'''' => '
'\u{fc}''' => \u{fc}'";

#[test]
fn reads_texts(rt: HostRuntime) {
    for line in QUOTED.lines() {
        reads_text(&rt, rt.alloc(), line);
    }
}

/// Asserts that the text on a line begins with the text in quotes on it.
fn reads_text(rt: &impl Abort, alloc: Global, line: &str) {
    let (text, want) = case(rt, alloc, line);
    same(rt, line, text_in(rt, alloc, &text).bytes(), &want);
}
