ghost use Rattle.std.specs.Prelude.{◌≡◌};
ghost use Rattle.std.specs.Option.{SomeIff};
ghost use Rattle.std.specs.Str.{IsUtf8};

use std::marker::Model;

/// A text that stands elsewhere, seen as the list of its bytes, which is UTF-8.
#[derive(Drop)]
pub struct Text<'a> {
    bytes: &'a [u8],
}

impl<'a> Model for Text<'a> {
    ghost use Rattle.std.specs.Prelude.{List, ℕ};
    ghost use Rattle.std.specs.Str.{IsUtf8};

    ghost Value = { List ℕ };

    ghost view = { λ t. t.bytes.now };

    ghost invariant = { λ t. IsUtf8 t.bytes.now };
}

impl<'a> Text<'a> {
    /// Makes the text of these bytes; None exactly if they aren't UTF-8.
    pub fn from_bytes(bytes: &'a [u8]) -> Option<Self>
        ensures { SomeIff result (IsUtf8 bytes.now) bytes.now }
    {
        let Ok(_) = std::str::from_utf8(bytes) else {
            return None;
        };
        Some(Text { bytes })
    }

    /// Makes the text of these bytes, which are known to be UTF-8.
    pub(crate) fn new(bytes: &'a [u8]) -> Self
        requires { IsUtf8 bytes.now }
        ensures { result ≡ bytes.now }
    {
        Text { bytes }
    }

    /// Returns its bytes.
    pub fn bytes(&self) -> &'a [u8]
        ensures value { result.now ≡ self.now }
        ensures utf8 { IsUtf8 result.now }
    {
        self.bytes
    }
}
