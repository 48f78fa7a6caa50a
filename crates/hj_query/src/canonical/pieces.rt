ghost use Rattle.std.specs.Prelude.{◌≡◌, [], ◌∷◌, ◌++◌, OnOk};
ghost use Rattle.std.specs.Fmt.{decimal, signed_decimal};
ghost use Rattle.hj_lex.specs.Tokens.{doubled, quoted};

use hj_base::Memory;
use std::io::Write;

/// Adds bytes to a text.
pub fn push_bytes(text: &mut Vec<u8>, bytes: &[u8]) -> Result<(), Memory>
    ensures { OnOk result (text.new.items ≡ text.old.items ++ bytes.now) }
{
    text.extend_from_slice(bytes)?;
    Ok(())
}

/// Adds a number without sign in decimal.
pub fn push_count(text: &mut Vec<u8>, count: u64) -> Result<(), Memory>
    ensures { OnOk result (text.new.items ≡ text.old.items ++ decimal count) }
{
    write!(text, "{count}").map_err(|_| Memory)
}

/// Adds a number with its sign in decimal.
pub fn push_number(text: &mut Vec<u8>, number: i64) -> Result<(), Memory>
    ensures { OnOk result (text.new.items ≡ text.old.items ++ signed_decimal number) }
{
    write!(text, "{number}").map_err(|_| Memory)
}

/// Adds bytes in `'`, with each `'` in them doubled.
pub fn push_quoted(text: &mut Vec<u8>, value: &[u8]) -> Result<(), Memory>
    ensures { OnOk result (text.new.items ≡ text.old.items ++ quoted value.now) }
{
    push_bytes(text, b"'")?;
    for byte in value {
        push_doubled(text, *byte)?;
    }
    push_bytes(text, b"'")
}

/// Adds a byte, twice where it is a `'`.
fn push_doubled(text: &mut Vec<u8>, byte: u8) -> Result<(), Memory>
    ensures { OnOk result (text.new.items ≡ text.old.items ++ doubled (byte ∷ [])) }
{
    if byte == b'\'' {
        return push_bytes(text, b"''");
    }
    push_bytes(text, &[byte])
}
