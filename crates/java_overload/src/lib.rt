//! Which of several methods or constructors a call means.
//!
//! It promises the accessible ones of methods, and the choice among methods by the types of arguments, exactly as
//! defined. It knows no expression and no scope.
#![tactic(auto)]

mod access;
mod choice;
mod first;

pub use access::accessible;
pub use choice::choose;
