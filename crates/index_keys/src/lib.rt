//! Keys of the index as bytes: a key's word, the order of words, and what a search admits.
//!
//! It promises that a key has one word, that `compare` is the order of words, and that `Admit` says the
//! same of keys in code and in contracts. It stands on java_tree's keys. It knows no Java, no pattern
//! and no file.
#![tactic(auto)]

mod admit;
mod words;

pub use admit::Admit;
pub use words::{category_at, category_byte, compare, has_fields, word_bytes};

#[cfg(test)]
mod tests;
