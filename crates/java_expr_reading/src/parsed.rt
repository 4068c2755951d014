use java_tree::{ArrayInitializer, Expr, Items, Primary};

/// Which expressions are meant.
#[derive(Clone, Copy, Debug)]
pub enum Goal {
    /// Any (JLS 15.27).
    Any,
    /// One that may be a statement (JLS 14.8).
    Statement,
}

/// The body of an anonymous class, which is read later: its first token, its last one, and the number of
/// counted symbols above it.
#[derive(Clone, Copy, Debug)]
pub struct PendingBody {
    pub first: usize,
    pub last: usize,
    pub depth: usize,
}

/// An expression, the place of the token after it, and the bodies of its anonymous classes, from left to right.
#[derive(Drop)]
pub struct ParsedExpr {
    pub expr: Expr,
    pub next: usize,
    pub bodies: Items<PendingBody>,
}

/// The same of a primary expression.
#[derive(Drop)]
pub struct ParsedPrimary {
    pub primary: Primary,
    pub next: usize,
    pub bodies: Items<PendingBody>,
}

/// The same of an array initializer (JLS 10.6).
#[derive(Drop)]
pub struct ParsedArray {
    pub array: ArrayInitializer,
    pub next: usize,
    pub bodies: Items<PendingBody>,
}
