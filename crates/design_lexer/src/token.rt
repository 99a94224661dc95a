/// What a token is.
#[derive(Clone, Copy, Debug, PartialEq, Eq)]
pub enum TokenKind {
    /// A name that is no reserved word.
    Name,
    /// A reserved word.
    Word,
    /// Digits.
    Whole,
    /// Digits, a point and digits.
    Decimal,
    /// A symbol of one or two bytes.
    Symbol,
}

/// A token of a text.
#[derive(Clone, Copy, Debug, PartialEq, Eq)]
pub struct Token {
    /// What it is.
    pub kind: TokenKind,
    /// The place of its first byte in the text.
    pub at: u64,
    /// How many bytes it has.
    pub len: u64,
}
