//! The matches of a search in one document (JDT `MatchLocator`).
//!
//! It promises, for a search for types or packages, exactly the occurrences of a document that fit its pattern, in
//! order, each as a match.
//! It stands on the occurrences that it is given, on the patterns of search_pattern and on the types of java_types. It
//! knows no text, no tree and no key.
#![tactic(auto)]

mod fitting;
mod locating;
mod picking;
mod qualified;
mod searches;

pub use locating::locate;
pub use searches::{have_bindings_by_kind, is_for_types};

#[cfg(test)]
mod tests;
