ghost use Rattle.std.specs.Prelude.{◌≡◌, ◌⊎◌, ◌+◌, ◌-◌, ◌^◌, ◌<◌, ◌≤◌, false, drop, length, All, IfOk, IsTrue, List, MatchOption, MatchResult, slice_index};
ghost use Rattle.std.specs.Char.{is_ascii_alphabetic, is_ascii_digit};
ghost use Rattle.std.specs.List.{prefix_len};
ghost use Rattle.hj_lex.specs.Fronts.{BeginsClosedText, BeginsToken, IsFirstByte, kind_of};
ghost use Rattle.hj_lex.specs.Tokens.{AreInOrder, AreTokens, BeginsOpenText, Explains, HasFault, IsBlankBetween, IsFirstFault, IsTokenOf, begins, begins_sign, is_blank, is_quote, is_word, quote, quoted, doubled};
ghost use Rattle.hj_lex.specs.declared.fault.LexFault.{LexFault};
ghost use Rattle.hj_lex.specs.declared.token.Token.{Token};

use crate::{LexFault, Token, TokenKind, Tokens};
use hj_value::read_int;
use std::alloc::Global;

/// Reads the tokens of a text, or its first fault in reading order.
pub fn lex(alloc: Global, text: &[u8]) -> Result<Tokens, LexFault>
    ensures reads { MatchResult result (AreTokens text.now) (Explains text.now) }

    // Tokens come exactly where the text is these tokens, and each fault exactly where it is the first.
    ensures tokens { (tokens : List Token) → AreTokens text.now tokens
        → (result ≡ Ok tokens) ⊎ (result ≡ Err LexFault.Memory) }
    ensures fault { (found : LexFault) → IsFirstFault text.now found
        → (result ≡ Err found) ⊎ (result ≡ Err LexFault.Memory) }

    // What callers ask of the tokens.
    ensures in_order { IfOk result (AreInOrder 0 (length text.now)) }
    ensures slices { IfOk result (All (IsTokenOf text.now)) }
{
    cut(alloc, text)
}

/// Cuts a text into tokens, one after another.
fn cut(alloc: Global, text: &[u8]) -> Result<Tokens, LexFault>
    ensures { MatchResult result (AreTokens text.now) (Explains text.now) }
{
    let mut tokens = Tokens::new(alloc);
    let mut at = blanks_end(text, 0);
    while at < text.len() {
        let token = token_at(text, at)?;
        tokens.push(token)?;
        at = blanks_end(text, token.to);
    }
    Ok(tokens)
}

/// Returns whether a byte separates tokens.
fn is_blank(byte: u8) -> bool
    ensures { result ≡ is_blank byte }
{
    matches!(byte, b' ' | b'\t' | b'\r' | b'\n')
}

/// Returns whether a name can go on with a byte.
fn is_word(byte: u8) -> bool
    ensures { result ≡ is_word byte }
{
    byte.is_ascii_alphanumeric() || byte == b'_'
}

/// Returns the place after the blanks that stand from a place on.
fn blanks_end(text: &[u8], at: usize) -> usize
    requires { at ≤ length text.now }
    ensures blank { IsBlankBetween text.now at result }
    ensures longest { begins is_blank (drop result text.now) ≡ false }
{
    at + blank_length(&text[at..])
}

/// Returns how many blanks the bytes begin with.
fn blank_length(rest: &[u8]) -> usize
    ensures { result ≡ prefix_len is_blank rest.now }
{
    rest.iter().take_while(|byte| is_blank(**byte)).count()
}

/// Reads the token that begins at a place.
fn token_at(text: &[u8], from: usize) -> Result<Token, LexFault>
    requires inside { from < length text.now }
    requires black { begins is_blank (drop from text.now) ≡ false }
    ensures { MatchResult result
        (λ token. (token.from ≡ from) × IsTokenOf text.now token)
        (HasFault from (drop from text.now)) }
{
    let kind = kind_of(text[from]);
    let length = token_length(kind, &text[from..], from)?;
    Ok(Token {
        from,
        to: from + length,
        kind,
    })
}

/// Returns the kind of the token that a byte begins, if it begins one.
fn kind_of(byte: u8) -> TokenKind
    ensures { result ≡ kind_of byte }
{
    match byte {
        b'A'..=b'Z' | b'a'..=b'z' => TokenKind::Name,
        b'0'..=b'9' => TokenKind::Number,
        b'\'' => TokenKind::Text,
        _ => TokenKind::Sign,
    }
}

/// Returns the length of the token of a kind that the bytes begin with; they stand at `from` in the text.
fn token_length(kind: TokenKind, rest: &[u8], from: usize) -> Result<usize, LexFault>
    requires first { IsFirstByte kind rest.now }
    requires fits { from + length rest.now < 2 ^ 64 }
    ensures { MatchResult result (BeginsToken kind rest.now) (HasFault from rest.now) }
{
    match kind {
        TokenKind::Name => Ok(word_length(rest)),
        TokenKind::Number => number_length(rest, from),
        TokenKind::Text => text_length(rest, from),
        TokenKind::Sign => sign_length(rest).ok_or(LexFault::BadByte(from)),
    }
}

/// Returns how many letters, digits and `_` the bytes begin with.
fn word_length(rest: &[u8]) -> usize
    ensures { result ≡ prefix_len is_word rest.now }
{
    rest.iter().take_while(|byte| is_word(**byte)).count()
}

/// Returns how many digits the bytes begin with.
fn digits_length(rest: &[u8]) -> usize
    ensures { result ≡ prefix_len is_ascii_digit rest.now }
{
    rest.iter().take_while(|byte| byte.is_ascii_digit()).count()
}

/// Returns the length of the number that the bytes begin with; they stand at `from` in the text.
fn number_length(rest: &[u8], from: usize) -> Result<usize, LexFault>
    requires digit { IsTrue (begins is_ascii_digit rest.now) }
    requires fits { from + length rest.now < 2 ^ 64 }
    ensures { MatchResult result (BeginsToken TokenKind.Number rest.now) (HasFault from rest.now) }
{
    let length = digits_length(rest);
    if read_int(&rest[..length]).is_err() {
        return Err(LexFault::NumberRange(from));
    }
    if has_word(rest, length) {
        return Err(LexFault::BadByte(from + length));
    }
    Ok(length)
}

/// Returns the length of the text that the bytes begin with; they stand at `from` in the query.
fn text_length(rest: &[u8], from: usize) -> Result<usize, LexFault>
    requires quote { IsTrue (begins is_quote rest.now) }
    requires fits { from + length rest.now < 2 ^ 64 }
    ensures { MatchResult result (BeginsToken TokenKind.Text rest.now) (HasFault from rest.now) }
{
    let Some(length) = closed_length(rest) else {
        return Err(LexFault::OpenText(from));
    };
    match std::str::from_utf8(&rest[1..length - 1]) {
        Ok(_) => Ok(length),
        Err(fault) => Err(LexFault::BadByte(from + 1 + fault.valid_up_to())),
    }
}

/// Returns the length of the text that the bytes begin with; None if it has no end.
fn closed_length(rest: &[u8]) -> Option<usize>
    requires { IsTrue (begins is_quote rest.now) }
    ensures { MatchOption result (BeginsOpenText rest.now) (BeginsClosedText rest.now) }
{
    let mut at = 1;
    'inside: while at < rest.len() {
        if !has_quote(rest, at) {
            at += 1;
        } else if has_quote(rest, at + 1) {
            at += 2;
        } else {
            return Some(at + 1);
        }
    }
    None
}

/// Returns whether a letter, a digit or `_` stands at a place.
fn has_word(bytes: &[u8], at: usize) -> bool
    ensures { result ≡ begins is_word (drop at bytes.now) }
{
    at < bytes.len() && is_word(bytes[at])
}

/// Returns whether a quote stands at a place.
fn has_quote(bytes: &[u8], at: usize) -> bool
    ensures { result ≡ begins is_quote (drop at bytes.now) }
{
    at < bytes.len() && bytes[at] == b'\''
}

/// Returns the length of the longest sign that the bytes begin with; None if there is none.
fn sign_length(rest: &[u8]) -> Option<usize>
    ensures { MatchOption result (begins_sign rest.now ≡ false) (BeginsToken TokenKind.Sign rest.now) }
{
    match rest {
        [b'!' | b'<' | b'>', b'=', ..] => Some(2),
        [
            b'(' | b')' | b',' | b'.' | b'+' | b'-' | b'=' | b'<' | b'>',
            ..
        ] => Some(1),
        _ => None,
    }
}
