ghost use Rattle.std.specs.Prelude.{◌≡◌, ◌≤◌, [], true, false, length, take, slice_get, All, IfOk, IfSome};
ghost use Rattle.hj_record.specs.Plain.{BeginsWithField, CutsPlain, IsBare, IsLineEnd, IsNextQuote, StandsBehind, TakesField, is_special};

use crate::lanes::{LANES, bare_ahead, unquoted_ahead};
use crate::{CARRIAGE_RETURN, COMMA, Fields, LINE_FEED, QUOTE};
use hj_base::Memory;

/// What a text in the plain form of RFC 4180 holds.
#[derive(Clone, Copy)]
pub(crate) enum PlainRecord {
    Record,
    NoRecord,
    /// The text has another form, and nothing is said of its record.
    NotPlain,
}

/// A field taken from the start of a text.
#[derive(Clone, Copy)]
enum TakenField {
    /// The next field stands after this many bytes, of which the last is a comma.
    Next(usize),
    /// It is the record's last.
    Last,
    NotPlain,
}

/// Cuts a text in the plain form of RFC 4180 into its fields: each in quotes, or without quote, comma and line end;
/// after the last of them LF, CR LF or nothing. It fills `fields`, which are empty before.
pub(crate) fn cut_plain(text: &[u8], fields: &mut Fields) -> Result<PlainRecord, Memory>
    requires { fields.old ≡ [] }
    ensures { IfOk result (λ found. CutsPlain found text.now fields.new) }
{
    if is_line_end(text) {
        return Ok(PlainRecord::NoRecord);
    }
    if begins_with_line_end(text) {
        return Ok(PlainRecord::NotPlain);
    }
    cut_line(text, fields)
}

/// Cuts a text that doesn't begin with the end of a line.
fn cut_line(text: &[u8], fields: &mut Fields) -> Result<PlainRecord, Memory>
    requires field { BeginsWithField text.now }
    requires empty { fields.old ≡ [] }
    ensures { IfOk result (λ found. CutsPlain found text.now fields.new) }
{
    let mut at = 0;
    loop {
        match take_field(&text[at..], fields)? {
            TakenField::Next(used) => at += used,
            TakenField::Last => return Ok(PlainRecord::Record),
            TakenField::NotPlain => return Ok(PlainRecord::NotPlain),
        }
    }
}

/// Takes a field from the start of a text, and appends it to those before.
fn take_field(text: &[u8], fields: &mut Fields) -> Result<TakenField, Memory>
    ensures { IfOk result (λ taken. TakesField taken text.now fields.old fields.new) }
{
    match text {
        [QUOTE, ..] => take_quoted(text, fields),
        _ => take_bare(text, fields),
    }
}

/// Takes a field without quotes.
fn take_bare(text: &[u8], fields: &mut Fields) -> Result<TakenField, Memory>
    ensures { IfOk result (λ taken. TakesField taken text.now fields.old fields.new) }
{
    let size = bare_size(text);
    fields.push(&text[..size])?;
    Ok(behind(text, size))
}

/// Takes a field in quotes. Of two quotes inside, the second is the field's.
fn take_quoted(text: &[u8], fields: &mut Fields) -> Result<TakenField, Memory>
    requires { slice_get text.now 0 ≡ Some 34 }
    ensures { IfOk result (λ taken. TakesField taken text.now fields.old fields.new) }
{
    let Some(mut quote) = quote_from(text, 1) else {
        return Ok(TakenField::NotPlain);
    };
    fields.push(&text[1..quote])?;
    while quote + 1 < text.len() && text[quote + 1] == QUOTE {
        let Some(next) = quote_from(text, quote + 2) else {
            return Ok(TakenField::NotPlain);
        };
        fields.extend_last(&text[quote + 1..next])?;
        quote = next;
    }
    Ok(behind(text, quote + 1))
}

/// Returns how many bytes a field without quotes has: those in front of the first one that can't stand in such a field.
pub fn bare_size(text: &[u8]) -> usize
    ensures within { result ≤ length text.now }
    ensures bare { All IsBare (take result text.now) }
{
    let mut at = 0;
    while text.len() - at >= LANES {
        let bare = bare_ahead(text, at);
        at += bare;
        if bare < LANES {
            return at;
        }
    }
    at + bare_of_few(&text[at..])
}

/// Returns the same of few bytes, looked at one by one.
fn bare_of_few(text: &[u8]) -> usize
    ensures within { result ≤ length text.now }
    ensures bare { All IsBare (take result text.now) }
{
    for (at, &byte) in text.iter().enumerate() {
        if is_special(byte) {
            return at;
        }
    }
    text.len()
}

/// Returns whether a byte can't stand in a field without quotes.
fn is_special(byte: u8) -> bool
    ensures { result ≡ is_special byte }
{
    byte == COMMA || byte == QUOTE || byte == CARRIAGE_RETURN || byte == LINE_FEED
}

/// Finds the first quote from a place on.
pub fn quote_from(text: &[u8], from: usize) -> Option<usize>
    requires { from ≤ length text.now }
    ensures { IfSome result (λ quote. IsNextQuote quote from text.now) }
{
    let mut at = from;
    while text.len() - at >= LANES {
        let unquoted = unquoted_ahead(text, at);
        at += unquoted;
        if unquoted < LANES {
            return Some(at);
        }
    }
    match quote_of_few(text, at) {
        Some(quote) => Some(quote),
        None => None,
    }
}

/// Finds the first quote from a place on, behind which few bytes stand.
fn quote_of_few(text: &[u8], from: usize) -> Option<usize>
    requires { from ≤ length text.now }
    ensures { IfSome result (λ quote. IsNextQuote quote from text.now) }
{
    for (at, &byte) in text[from..].iter().enumerate() {
        if byte == QUOTE {
            return Some(from + at);
        }
    }
    None
}

/// Tells what stands after a field that takes `size` bytes.
fn behind(text: &[u8], size: usize) -> TakenField
    requires { size ≤ length text.now }
    ensures { StandsBehind result size text.now }
{
    match &text[size..] {
        [COMMA, ..] => TakenField::Next(size + 1),
        rest if is_line_end(rest) => TakenField::Last,
        _ => TakenField::NotPlain,
    }
}

/// Returns whether the bytes are LF or CR LF, or none at all.
fn is_line_end(bytes: &[u8]) -> bool
    ensures { result ≡ true → IsLineEnd bytes.now }
{
    matches!(bytes, [] | [LINE_FEED] | [CARRIAGE_RETURN, LINE_FEED])
}

/// Returns whether the text begins with LF or CR, or is empty.
fn begins_with_line_end(text: &[u8]) -> bool
    ensures { result ≡ false → BeginsWithField text.now }
{
    match text.first() {
        Some(&first) => first == CARRIAGE_RETURN || first == LINE_FEED,
        None => true,
    }
}
