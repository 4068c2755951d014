//! Documents: a text with its name, its source level and its outline.
//!
//! It promises that a document has what was handed in, and the outline of exactly the unit that its text has, or
//! none where the text is unreadable; that a document is refused exactly where its path is no Java source's or its
//! text is too long; and that a text has one outline at most.
//! It stands on the parser of units and on the definition of outlines in java_model. It knows no environment of
//! other documents, no index and no file.
#![tactic(auto)]

mod document;
mod fault;
mod finding;
mod head;
mod heads;
mod hole;
mod in_expressions;
mod in_members;
mod in_statements;
mod laws;
mod members;
mod numbers;
mod outline;
mod reading;
mod scope;
mod spelled;
mod types;

pub use document::Document;
pub use fault::DocFault;
pub use laws::one_outline;
pub use outline::outline_of;

#[cfg(test)]
mod expr_tests;
#[cfg(test)]
mod tests;
