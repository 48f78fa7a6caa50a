ghost use Rattle.std.specs.Prelude.{◌≡◌, length, slice_get, IfOk};
ghost use Rattle.std.specs.Option.{SomeIff, option_copied};
ghost use Rattle.std.specs.Str.{IsUtf8};

use crate::Memory;
use std::alloc::Global;
use std::marker::Model;

/// A text, seen as the list of its bytes, which is UTF-8.
#[derive(Debug, Drop)]
pub struct TextBytes {
    text: String,
}

impl Model for TextBytes {
    ghost use Rattle.std.specs.Prelude.{List, ℕ, string_bytes};

    ghost Value = { List ℕ };

    ghost view = { λ t. string_bytes t.text };
}

impl TextBytes {
    /// Makes the text of these bytes; None exactly if they aren't UTF-8.
    pub fn from_bytes(alloc: Global, bytes: &[u8]) -> Result<Option<Self>, Memory>
        ensures { IfOk result (λ made. SomeIff made (IsUtf8 bytes.now) bytes.now) }
    {
        let Ok(text) = std::str::from_utf8(bytes) else {
            return Ok(None);
        };
        Ok(Some(TextBytes {
            text: String::from_str(alloc, text)?,
        }))
    }

    /// Makes a text of the same bytes.
    pub fn copy(&self, alloc: Global) -> Result<Self, Memory>
        ensures { IfOk result (λ copy. copy ≡ self.now) }
    {
        Ok(TextBytes {
            text: String::from_str(alloc, self.text.as_str())?,
        })
    }

    /// Returns how many bytes it has.
    pub fn len(&self) -> usize
        ensures { result ≡ length self.now }
    {
        self.text.len()
    }

    /// Returns the byte at a place, counted from 0; None exactly at or past the length.
    pub fn get(&self, at: usize) -> Option<&u8>
        ensures { option_copied result ≡ slice_get self.now at }
    {
        self.text.as_bytes().get(at)
    }

    /// Returns its bytes.
    pub fn bytes(&self) -> &[u8]
        ensures value { result.now ≡ self.now }
        ensures utf8 { IsUtf8 result.now }
    {
        self.text.as_str().as_bytes()
    }

    /// Returns the text as a `str`.
    pub fn text(&self) -> &str
        ensures { result.now ≡ self.now }
    {
        self.text.as_str()
    }
}
