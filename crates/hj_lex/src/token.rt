/// What a token is.
#[derive(Clone, Copy, Debug, PartialEq, Eq)]
pub enum TokenKind {
    /// A letter, then letters, digits and `_`.
    Name,
    /// Digits.
    Number,
    /// Bytes between quotes `'`, where two quotes in a row stand for one.
    Text,
    /// A parenthesis, a comma, a dot, `+`, `-` or a comparison.
    Sign,
}

/// A token: the bytes of a text from a place up to another.
#[derive(Clone, Copy, Debug, PartialEq, Eq)]
pub struct Token {
    /// The place of its first byte, counted from 0.
    pub from: usize,
    /// The place after its last byte.
    pub to: usize,
    pub kind: TokenKind,
}
