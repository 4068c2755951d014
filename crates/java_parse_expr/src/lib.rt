//! The parser of Java expressions (JLS 15).
//!
//! `expr` and `primary` read the expression at a place, and say so exactly: what they found stands there, each that
//! stands there is found, and none stands there where they find none. `read_expr`, `read_primary` and `read_array` are
//! what a parser of units asks for: they read as the functions of java_expr_reading do, and count no steps.
//! Each production has a parser over parsers of what is nested, and the knot is tied once, on the depth that is left.
//! It stands on java_expr_reading, and knows no statement and no file.
#![tactic(auto)]

mod answer;
mod expressions;
mod grammar;
mod levels;
mod primaries;

pub use answer::{expr, parse_expr, primary, read_array, read_expr, read_primary};
pub use java_expr_reading::{
    ExprFault, Goal, Marked, ParsedArray, ParsedExpr, ParsedPrimary, PendingBody, one_expr,
    reads_expressions, reads_qualifiers,
};
