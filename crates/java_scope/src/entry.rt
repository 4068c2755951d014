use java_tree::Bound;

/// A bound, and the places of bounds before it.
#[derive(Debug, Drop)]
pub struct Entry {
    /// The bound.
    pub bound: Bound,
    /// The place of the variable before it whose name has the same key.
    pub before: Option<u64>,
    /// The place of the members of the innermost type around it.
    pub body: Option<u64>,
    /// The place of the innermost bound around it that is no variable.
    pub outer: Option<u64>,
}
