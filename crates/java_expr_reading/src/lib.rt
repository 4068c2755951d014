//! Java expressions (JLS 15) as trees: how they are read from left to right.
//!
//! It promises that the functions of `specs/Reading` find each expression that stands at a place of a list of
//! tokens, and nothing else there, and that no two expressions stand at a place. For the parser above it marks
//! tokens with what a parser asks of them, and has a cursor over them whose steps are those of the reading
//! functions, with names, types, operators and the forms that side rules ask for. It stands on java_model's grammar.
//! It knows no statement and no file, and reads no expression itself.
#![tactic(auto)]

mod cursor;
mod ends;
mod fault;
pub mod forms;
mod laws;
mod marked;
pub mod names;
mod operators;
mod parsed;
mod shape;
mod signs;

pub use cursor::Cursor;
pub use fault::ExprFault;
pub use laws::{one_expr, reads_expressions, reads_qualifiers};
pub use marked::Marked;
pub use operators::{Operator, primitive_of};
pub use parsed::{Goal, ParsedArray, ParsedExpr, ParsedPrimary, PendingBody};
pub use shape::Shape;
