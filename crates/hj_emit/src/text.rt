ghost use Rattle.std.specs.Prelude.{◌≡◌, ◌==◌, ◌++◌, [], ◌∷◌, OnOk};
ghost use Rattle.std.specs.List.{list_any};
ghost use Rattle.csv.specs.Writing.{default_writer, escaped, quoted};
ghost use Rattle.hj_emit.specs.Cells.{cell};

use crate::marks::marks_in;
use hj_base::Memory;

/// Appends a text and a comma, the text in quotes if it needs them.
pub(crate) fn push_text(text: &mut Vec<u8>, bytes: &[u8]) -> Result<(), Memory>
    ensures { OnOk result (text.new.items ≡ text.old.items ++ cell bytes.now) }
{
    let marks = marks_in(bytes);
    if marks.special {
        return push_quoted(text, bytes, marks.quote);
    }
    text.extend_from_slice(bytes)?;
    text.push(b',')?;
    Ok(())
}

/// Appends a text in quotes and a comma, with each quote in the text doubled.
#[inline(always)]
fn push_quoted(text: &mut Vec<u8>, bytes: &[u8], has_quote: bool) -> Result<(), Memory>
    requires { has_quote ≡ list_any (λ byte. byte == 34) bytes.now }
    ensures { OnOk result (text.new.items ≡ text.old.items ++ (quoted default_writer bytes.now ++ 44 ∷ [])) }
{
    text.push(b'"')?;
    push_inside(text, bytes, has_quote)?;
    text.extend_from_slice(b"\",")?;
    Ok(())
}

/// Appends what stands between the quotes: the text, with each quote in it doubled.
#[inline(always)]
fn push_inside(text: &mut Vec<u8>, bytes: &[u8], has_quote: bool) -> Result<(), Memory>
    requires { has_quote ≡ list_any (λ byte. byte == 34) bytes.now }
    ensures { OnOk result (text.new.items ≡ text.old.items ++ escaped default_writer bytes.now) }
{
    if has_quote {
        return push_doubled(text, bytes);
    }
    text.extend_from_slice(bytes)?;
    Ok(())
}

/// Appends a text with each quote in it doubled.
#[cold]
fn push_doubled(text: &mut Vec<u8>, bytes: &[u8]) -> Result<(), Memory>
    ensures { OnOk result (text.new.items ≡ text.old.items ++ escaped default_writer bytes.now) }
{
    for byte in bytes {
        push_escaped(text, *byte)?;
    }
    Ok(())
}

/// Appends a byte of a text in quotes: a quote twice.
#[tactic(auto, unfolding(csv::specs::Writing::escaped))]
fn push_escaped(text: &mut Vec<u8>, byte: u8) -> Result<(), Memory>
    ensures { OnOk result (text.new.items ≡ text.old.items ++ escaped default_writer (byte ∷ [])) }
{
    if byte == b'"' {
        text.extend_from_slice(b"\"\"")?;
        return Ok(());
    }
    text.push(byte)?;
    Ok(())
}
