ghost use Rattle.std.specs.Prelude.{◌≡◌, ◌-◌};

use crate::token_text::TokenText;

/// A part of a text: the bytes from `start` up to `end`.
#[derive(Clone, Copy, Debug, PartialEq, Eq)]
pub struct Span {
    pub start: u32,
    pub end: u32,
}

impl Span {
    /// The length in bytes.
    pub fn len(self) -> u32
        ensures { result ≡ self.end - self.start }
    {
        self.end.saturating_sub(self.start)
    }
}

/// The kind of a token (JLS 3.8 to 3.12).
#[derive(Clone, Copy, Debug, PartialEq, Eq)]
pub enum TokenKind {
    Identifier,
    /// A keyword (JLS 3.9), or one of `true`, `false` and `null`.
    Keyword,
    IntLit,
    LongLit,
    FloatLit,
    DoubleLit,
    CharLit,
    StringLit,
    /// A separator or an operator (JLS 3.11, 3.12).
    Symbol,
}

/// A token (JLS 3.5): its kind, its spelling after Unicode escapes, and where it stands.
#[derive(Debug, Drop)]
pub struct Token {
    pub kind: TokenKind,
    pub name: TokenText,
    pub span: Span,
}
