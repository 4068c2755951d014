//! The scanner of Java texts: the tokens of a text, each with its kind, its spelling and its span.
//!
//! It promises that each text has exactly one answer while memory lasts: its tokens, or its first fault. A
//! text with Unicode escapes is copied without them, and places are those of the text itself.
//! It stands on the definition of the lexical structure in java_model. It knows no grammar, no document
//! and no file.
#![tactic(auto)]

mod class;
mod comments;
mod cursor;
mod element;
mod elements;
mod escapes;
mod fault;
mod joining;
mod moving;
mod numbers;
mod quoted;
mod scanner;
mod symbols;
mod words;

pub use fault::ScanFault;
pub use scanner::{scan, scan_at};

#[cfg(test)]
mod tests;
