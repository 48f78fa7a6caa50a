ghost use Rattle.std.specs.Prelude.{◌≡◌, ◌+◌, ◌*◌, ◌++◌, ◌<◌, ◌≤◌, [], ◌∷◌, ℕ, length, slice_get, OnOk, OnErr, IfOk};
ghost use Rattle.std.specs.Fmt.{signed_decimal};
ghost use Rattle.std.specs.Option.{option_copied};
ghost use Rattle.std.specs.Str.Parse.{starts_with_minus, without_leading_sign};
ghost use Rattle.hj_value.specs.Magnitude.{magnitude_of, signed_of, IsUpTo};
ghost use Rattle.hj_value.specs.Number.{int_of};

use crate::IntText;
use hj_base::Memory;
use itoa::Buffer;
use std::alloc::Global;
use thiserror::Error;

/// Why the bytes of a field are no whole number.
#[derive(Clone, Copy, Debug, PartialEq, Eq, Error)]
pub enum IntFault {
    /// They aren't an optional sign and one or more digits.
    #[error("not a number")]
    NotNumber,
    /// They are, but the value is outside 64 bits with sign.
    #[error("number out of range")]
    NumberRange,
}

/// Reads a whole number in decimal.
pub fn read_int(bytes: &[u8]) -> Result<i64, IntFault>
    ensures { result ≡ int_of bytes.now }
{
    let (is_negative, digits) = split_sign(bytes);
    if digits.is_empty() {
        return Err(IntFault::NotNumber);
    }
    let magnitude = if digits.len() <= 18 {
        short_magnitude(digits)?
    } else {
        long_magnitude(digits)?
    };
    signed(is_negative, magnitude)
}

/// Returns whether the bytes begin with `-`, and what follows a leading `-` or `+`.
fn split_sign(bytes: &[u8]) -> (bool, &[u8])
    ensures minus { result.0 ≡ starts_with_minus bytes.now }
    ensures rest { result.1.now ≡ without_leading_sign bytes.now }
{
    match bytes {
        [b'-', digits @ ..] => (true, digits),
        [b'+', digits @ ..] => (false, digits),
        _ => (false, bytes),
    }
}

/// Reads at most 18 digits. Such a number is below 2^60, so no step has to look at the range.
fn short_magnitude(digits: &[u8]) -> Result<u64, IntFault>
    requires { length digits.now ≤ 18 }
    ensures { result ≡ magnitude_of digits.now }
{
    let mut value = 0;
    for digit in digits {
        if !digit.is_ascii_digit() {
            return Err(IntFault::NotNumber);
        }
        value = value * 10 + u64::from(*digit - b'0');
    }
    Ok(value)
}

/// Reads any number of digits.
#[cold]
fn long_magnitude(digits: &[u8]) -> Result<u64, IntFault>
    ensures { result ≡ magnitude_of digits.now }
{
    let mut value = Some(0);
    for digit in digits {
        if !digit.is_ascii_digit() {
            return Err(IntFault::NotNumber);
        }
        value = with_digit(value, *digit - b'0');
    }
    value.ok_or(IntFault::NumberRange)
}

/// Returns the number with one more digit; None for 2^64 and more.
fn with_digit(value: Option<u64>, digit: u8) -> Option<u64>
    ensures { (n : ℕ) → IsUpTo value n → IsUpTo result (n * 10 + digit) }
{
    value?.checked_mul(10)?.checked_add(u64::from(digit))
}

/// Returns the number with this sign.
fn signed(is_negative: bool, magnitude: u64) -> Result<i64, IntFault>
    ensures { result ≡ signed_of is_negative magnitude }
{
    match i64::try_from(magnitude) {
        Ok(value) if is_negative => Ok(-value),
        Ok(value) => Ok(value),
        Err(_) if is_negative && magnitude == 1 << 63 => Ok(i64::MIN),
        Err(_) => Err(IntFault::NumberRange),
    }
}

/// Makes the canonical decimal text of a number: no plus, no leading zeros, `0` for zero.
pub fn print_int(alloc: Global, value: i64) -> Result<IntText, Memory>
    ensures { IfOk result (λ text. text ≡ signed_decimal value) }
{
    let mut buffer = Buffer::new();
    let digits = Vec::from_slice(alloc, buffer.format(value).as_bytes())?;
    Ok(IntText::from_vec(digits))
}
