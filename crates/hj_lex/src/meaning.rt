ghost use Rattle.std.specs.Prelude.{◌≡◌, IfOk, if◌then◌else◌, pos};
ghost use Rattle.hj_lex.specs.Tokens.{IsNumber, IsText, is_quote, number_value, quoted};

use hj_base::Memory;
use hj_value::{TextBytes, read_int};
use std::alloc::{AllocError, Global};

/// Returns the number that the bytes of a Number token stand for.
pub fn number_value(word: &[u8]) -> i64
    requires { IsNumber word.now }
    ensures { result ≡ pos (number_value word.now) }
{
    match read_int(word) {
        Ok(value) => value,
        Err(_) => unreachable!(),
    }
}

/// Makes the text that the bytes of a Text token stand for: what is between its quotes, with each doubled quote once.
pub fn text_value(alloc: Global, word: &[u8]) -> Result<TextBytes, Memory>
    requires { IsText word.now }
    ensures { IfOk result (λ value. word.now ≡ quoted value) }
{
    let bytes = undoubled(alloc, word)?;
    match TextBytes::from_bytes(alloc, &bytes)? {
        Some(value) => Ok(value),
        None => unreachable!(),
    }
}

/// Returns the bytes between the quotes of a text, with each doubled quote once.
fn undoubled(alloc: Global, word: &[u8]) -> Result<Vec<u8>, AllocError>
    requires { IsText word.now }
    ensures { IfOk result (λ value. word.now ≡ quoted value.items) }
{
    let mut value = Vec::new(alloc);
    let mut at = 1;
    'inside: while at + 1 < word.len() {
        value.push(word[at])?;
        at += width(word[at]);
    }
    Ok(value)
}

/// Returns how many bytes inside a text stand for a byte.
fn width(byte: u8) -> usize
    ensures { result ≡ (if is_quote byte then 2 else 1) }
{
    if byte == b'\'' { 2 } else { 1 }
}
