//! Numbers and names among the words.
ghost use Rattle.std.specs.Prelude.{◌≡◌, IfOk, IfSome, option_map};
ghost use Rattle.std.specs.Str.{all_ascii_digits};
ghost use Rattle.hj_words.specs.Ranges.{IsFrom};
ghost use Rattle.hj_words.specs.Orders.{number_in, number_of, number_or, name_in, schedule_of};

use hj_base::{Memory, Name};
use std::alloc::Global;

const MOST_DIGITS: usize = 20;

/// Reads the number of a word, from `low` to `high`; None if there is no word, or it is no such number.
pub fn number(word: Option<&str>, low: u64, high: u64) -> Option<u64>
    ensures value { result ≡ number_in low high (option_map (λ w. w.now) word.entry) }
    ensures range { IfSome result (IsFrom low high) }
{
    number_of(word?, low, high)
}

/// Reads the number of a word, from `low` to `high`, or `default` if there is no word; None if it is no such number.
pub fn number_or(word: Option<&str>, default: u64, low: u64, high: u64) -> Option<u64>
    requires { IsFrom low high default }
    ensures value { result ≡ number_or default low high (option_map (λ w. w.now) word.entry) }
    ensures range { IfSome result (IsFrom low high) }
{
    match word {
        Some(word) => number_of(word, low, high),
        None => Some(default),
    }
}

/// Reads the seed of a schedule, if it has one; None if its word is no seed, or there are threads.
pub fn schedule(word: Option<&str>, threads: u64) -> Option<Option<u64>>
    ensures { result ≡ schedule_of threads (option_map (λ w. w.now) word.entry) }
{
    let Some(word) = word else {
        return Some(None);
    };
    if threads != 0 {
        return None;
    }
    Some(Some(number_of(word, 0, u64::MAX)?))
}

/// Reads the name of a stream or a query; None if there is no word, or it is empty or `-`.
pub fn name(alloc: Global, word: Option<&str>) -> Result<Option<Name>, Memory>
    ensures { IfOk result (λ name. name ≡ name_in (option_map (λ w. w.now) word.entry)) }
{
    let Some(word) = word else {
        return Ok(None);
    };
    if word.is_empty() || word == "-" {
        return Ok(None);
    }
    Name::from_bytes(alloc, word.as_bytes())
}

/// Reads a number of 1 to 20 digits, from `low` to `high`.
fn number_of(word: &str, low: u64, high: u64) -> Option<u64>
    ensures value { result ≡ number_of low high word.now }
    ensures range { IfSome result (IsFrom low high) }
{
    if word.is_empty() || word.len() > MOST_DIGITS || !are_digits(word) {
        return None;
    }
    let number = word.parse::<u64>().ok()?;
    if number < low || number > high {
        return None;
    }
    Some(number)
}

/// Returns whether each byte is a digit 0 to 9.
fn are_digits(word: &str) -> bool
    ensures { result ≡ all_ascii_digits word.now }
{
    word.bytes().all(|b| b.is_ascii_digit())
}
