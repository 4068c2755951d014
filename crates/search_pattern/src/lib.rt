//! Patterns of searches (JDT `SearchPattern`): what their text says, and how their names are compared.
//!
//! It promises that a text is read as exactly the pattern that it is, or refused with its first cause and the place of
//! that, and that a name matches exactly where the match rule says so.
//! It stands on the words of searches in java_tree and on the definition of patterns in java_model. It knows no Java
//! text, no occurrence and no key.
#![tactic(auto)]

mod camel;
mod fault;
mod limits;
mod names;
mod params;
mod parens;
mod parts;
mod pattern;
mod same;
mod trimming;
mod wild;

pub use fault::PatternFault;
pub use names::name_matches;
pub use pattern::Pattern;

#[cfg(test)]
mod tests;
