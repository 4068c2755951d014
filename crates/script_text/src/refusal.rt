/// Why the pattern of a search is refused.
#[derive(Clone, Copy, Debug, PartialEq, Eq)]
pub enum Refusal {
    /// The limit isn't one of this kind of element.
    WrongLimit,
    /// Parentheses stand wrong, as this byte of the text shows.
    BadParens(usize),
    /// The name is empty, a qualification that is given, or one of several parameters.
    Empty,
}
