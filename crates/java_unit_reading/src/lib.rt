//! Java units (JLS 7.3) as trees: how they are read from left to right.
//!
//! It promises that the functions of `specs/Reading` find the unit of tokens and nothing else, and that no tokens have two
//! units. For the parsers above it has a reader of marked tokens, which keeps the types that begin before its place, a
//! look ahead, and the parsers of names, types and modifiers. It stands on java_model's grammar and java_expr_reading's
//! reading functions. It knows no file, reads no expression itself, and needs no parser of them.
#![tactic(auto)]

mod fault;
mod laws;
mod look;
mod reader;
pub mod words;

pub use fault::UnitFault;
pub use laws::{one_unit, reads_units};
pub use look::Look;
pub use reader::Reader;
