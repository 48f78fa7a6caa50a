ghost use Rattle.std.specs.Prelude.{◌≡◌, Some, slice_get, IfSome};
ghost use Rattle.hj_event.specs.Lines.{TakesText};

use hj_record::{QUOTE, bare_size, quote_from};
use hj_value::Text;

/// Takes a text from the start of some bytes, with this byte behind it: in quotes with no quote inside, or with no quote, comma or
/// line end. Returns it with the count of all these bytes; None where the bytes don't begin so.
// Called, so that the reading of numbers around it stays small.
#[inline(never)]
pub(crate) fn take_text(bytes: &[u8], behind: u8) -> Option<(Text<'_>, usize)>
    ensures { IfSome result (λ found. TakesText found.0 found.1 behind bytes.now) }
{
    match bytes {
        [QUOTE, ..] => take_quoted(bytes, behind),
        _ => take_bare(bytes, behind),
    }
}

/// Takes a text without quotes.
#[inline(always)]
fn take_bare(bytes: &[u8], behind: u8) -> Option<(Text<'_>, usize)>
    ensures { IfSome result (λ found. TakesText found.0 found.1 behind bytes.now) }
{
    let size = bare_size(bytes);
    let next = bytes.get(size)?;
    if *next != behind {
        return None;
    }
    let text = Text::from_bytes(&bytes[..size])?;
    Some((text, size + 1))
}

/// Takes a text in quotes.
#[inline(always)]
fn take_quoted(bytes: &[u8], behind: u8) -> Option<(Text<'_>, usize)>
    requires { slice_get bytes.now 0 ≡ Some 34 }
    ensures { IfSome result (λ found. TakesText found.0 found.1 behind bytes.now) }
{
    let quote = quote_from(bytes, 1)?;
    let next = bytes.get(quote + 1)?;
    if *next != behind {
        return None;
    }
    let text = Text::from_bytes(&bytes[1..quote])?;
    Some((text, quote + 2))
}
