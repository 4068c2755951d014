//! The parser of Java units (JLS 7.3): types, their members and what stands outside types.
//!
//! It promises that a text has its tree exactly where the definition of java_model says so, and that no text has two:
//! `parse` answers the tree, the fault of the scanner, or that the tokens have no tree. It stands on java_scan's tokens,
//! on java_parse_stmt's parser of statements and on java_unit_reading's laws. It knows no document and no file.
//!
//! Each production has a parser over parsers of what is nested; the knot of statements and types is tied here, on the
//! depth that is left.
#![tactic(auto)]

mod knot;
mod members;
mod parsing;
mod units;
mod unreadable;

pub use java_unit_reading::{one_unit, reads_units};
pub use parsing::{parse, parse_at};
pub use unreadable::Unreadable;
