/// The kind of element that a search looks for (JDT `IJavaSearchConstants`).
#[derive(Clone, Copy, Debug, PartialEq, Eq)]
pub enum What {
    Class,
    Method,
    Constructor,
    Field,
    Package,
}

/// What a search is limited to (JDT `IJavaSearchConstants`).
#[derive(Clone, Copy, Debug, PartialEq, Eq)]
pub enum Limit {
    Declarations,
    References,
    Implementors,
    All,
    Reads,
    Writes,
}

/// How the names of a pattern are compared (JDT `SearchPattern`).
#[derive(Clone, Copy, Debug, PartialEq, Eq)]
pub enum Rule {
    Exact,
    Prefix,
    Wild,
    Camel,
}
