/// What a token is.
#[derive(Clone, Copy, Debug, PartialEq, Eq)]
pub enum Kind {
    LeftParen,
    RightParen,
    Quote,
    Backquote,
    Comma,
    CommaAt,
    /// A string, with its quotes.
    Text,
    /// `#\` with one byte or a character's name.
    Character,
    /// `#x`, `#o` or `#b` with an optional sign and digits of that base.
    Based,
    /// A number or a symbol.
    Atom,
    /// A lone `.`.
    Dot,
}

/// A token: where it begins, and its bytes, which are a slice of the text.
#[derive(Clone, Copy, Debug)]
pub struct Token<'a> {
    pub start: usize,
    pub text: &'a [u8],
    pub kind: Kind,
}

/// Why no token can be read.
#[derive(Clone, Copy, Debug, PartialEq, Eq)]
pub enum FaultKind {
    /// The text ends within a string.
    OpenString,
    /// The text ends within a comment `#| .. |#`.
    OpenComment,
    /// The text ends within a stretch between bars, or after a backslash.
    OpenBar,
    /// A `#` that begins nothing, or a based number without digits or with a wrong one.
    BadHash,
    /// `#\` with several bytes that name no character.
    BadCharName,
}

/// A fault, at the first byte of what it is in.
#[derive(Clone, Copy, Debug, PartialEq, Eq)]
pub struct TokenFault {
    pub place: usize,
    pub kind: FaultKind,
}
