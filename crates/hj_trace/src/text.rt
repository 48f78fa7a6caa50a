ghost use Rattle.std.specs.Prelude.{◌≡◌, ◌++◌, OnOk};
ghost use Rattle.std.specs.Fmt.{decimal};

use hj_base::Memory;
use itoa::Buffer;

/// Appends words as they are.
pub fn push_words(text: &mut Vec<u8>, words: &str) -> Result<(), Memory>
    ensures { OnOk result (text.new.items ≡ text.old.items ++ words.now) }
{
    text.extend_from_slice(words.as_bytes())?;
    Ok(())
}

/// Appends a number in decimal.
pub fn push_number(text: &mut Vec<u8>, number: u64) -> Result<(), Memory>
    ensures { OnOk result (text.new.items ≡ text.old.items ++ decimal number) }
{
    let mut digits = Buffer::new();
    text.extend_from_slice(digits.format(number).as_bytes())?;
    Ok(())
}

/// Appends words, and then a number in decimal.
#[inline(always)]
pub fn push_numbered(text: &mut Vec<u8>, words: &str, number: u64) -> Result<(), Memory>
    ensures { OnOk result (text.new.items ≡ text.old.items ++ (words.now ++ decimal number)) }
{
    push_words(text, words)?;
    push_number(text, number)
}
