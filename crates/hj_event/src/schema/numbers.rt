ghost use Rattle.std.specs.Prelude.{IfSome};
ghost use Rattle.hj_event.specs.Lines.{IsLeading, TakesInt};

/// Takes a number from the start of some bytes, with this byte behind its digits. Returns it with the count of all these bytes;
/// None where the bytes don't begin so.
#[inline(always)]
pub(crate) fn take_int(bytes: &[u8], behind: u8) -> Option<(i64, usize)>
    ensures { IfSome result (λ found. TakesInt found.0 found.1 behind bytes.now) }
{
    let (value, digits) = leading_int(bytes)?;
    if bytes[digits] == behind {
        Some((value, digits + 1))
    } else {
        None
    }
}

/// Reads the number whose digits, 18 at most, stand at the start of some bytes in front of one that is no digit. Returns it with
/// the count of its digits; None where no such number stands there.
#[inline(always)]
fn leading_int(bytes: &[u8]) -> Option<(i64, usize)>
    ensures { IfSome result (λ found. IsLeading found.0 found.1 bytes.now) }
{
    let mut value = 0u64;
    for (at, &byte) in bytes[..bytes.len().min(19)].iter().enumerate() {
        if !byte.is_ascii_digit() {
            return if at == 0 {
                None
            } else {
                Some((value as i64, at))
            };
        }
        value = value * 10 + u64::from(byte - b'0');
    }
    None
}
