use java_tree::Mark;

/// What a token is, without its spelling and its place.
#[derive(Clone, Copy, Debug)]
pub enum Shape {
    /// A keyword or a symbol (JLS 3.9, 3.11, 3.12) other than the next three.
    Mark(Mark),
    LeftBrace,
    This,
    Super,
    /// An identifier (JLS 3.8).
    Word,
    /// JLS 3.10.
    Literal,
    /// A token that stands in no tree.
    Stray,
    /// No token is left.
    End,
}
