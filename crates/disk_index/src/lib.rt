//! The disk part of an index: a front-coded file that is written, read and queried.
//!
//! It promises that `encode` gives the one file of a content, that `parse` accepts exactly the files of
//! a content and else names the first fault, and that `query` answers the entries with an admitted key.
//! It stands on the definition of an index file in java_model and on index_keys. It knows no Java, no
//! pattern and no disk.
#![tactic(auto)]

mod blocks;
mod entries;
mod fault;
mod fields;
mod named;
mod part;
mod put;
mod query;
mod rows;
mod spelled;
mod words;
mod write;

pub use fault::{EncodeFault, FileFault};
pub use part::DiskPart;
pub use write::{MAX_IMAGE, encode};

#[cfg(test)]
mod tests;
