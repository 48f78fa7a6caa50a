ghost use Rattle.std.specs.Prelude.{◌≡◌, fold};
ghost use Rattle.hj_index.specs.Keys.{key_at, key_of, mixed};

use hj_value::{Field, Row};

/// Gives the key of a column's value in a row; None where the row lacks it. Equal values have equal keys.
#[inline(always)]
pub(crate) fn key_at(row: &Row, column: u16) -> Option<u64>
    ensures { result ≡ key_at column row.now }
{
    match row.get(usize::from(column))? {
        Field::Int(number) => Some(number.cast_unsigned()),
        Field::Text(text) => Some(mixed_bytes(text.bytes())),
    }
}

/// Mixes the bytes of a text as FNV-1a does.
fn mixed_bytes(bytes: &[u8]) -> u64
    ensures { result ≡ fold mixed 14695981039346656037 bytes.now }
{
    let mut key = 14_695_981_039_346_656_037;
    for byte in bytes {
        key = mixed(key, *byte);
    }
    key
}

/// Mixes a byte into a key.
fn mixed(key: u64, byte: u8) -> u64
    ensures { result ≡ mixed key byte }
{
    (key ^ u64::from(byte)).wrapping_mul(1_099_511_628_211)
}
