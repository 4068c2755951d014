//! The parser of Java statements (JLS 14), with the expressions in statements and members.
//!
//! Each production has a parser over parsers of what is nested, statements and types, which it takes as function values:
//! the knot is tied above, on the depth that is left. Each reads as the function of java_unit_reading does, unless memory
//! runs out. It stands on java_parse_expr's parser of expressions, and reads the bodies of anonymous classes that this
//! one passes over. It knows no member and no file.
#![tactic(auto)]

mod blocks;
mod expressions;
mod grammar;
mod ifs;
mod loops;
mod nested;
mod simple;
mod switches;
mod tries;
mod variables;

pub use grammar::Grammar;
pub use variables::parameter;
