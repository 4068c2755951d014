//! Types and their members (JLS 8, 9).

mod constructors;
mod declarations;
mod heads;
mod invocations;
mod methods;

pub(crate) use heads::head;
use java_parse_stmt::Grammar;

/// Parsers of the members of a type, over those of what is nested in them.
#[derive(Clone, Copy)]
pub(crate) struct Members<S, T> {
    pub(crate) nested: Grammar<S, T>,
}
