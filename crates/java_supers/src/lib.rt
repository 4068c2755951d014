//! The supertypes of the types that documents declare.
//!
//! It promises that the direct supertypes of a type, and whether a type is a subtype of another, are answered exactly as
//! defined, from tables that are filled once, and that no call is as deep as a chain of types.
//! It stands on the types of java_types by their names, and on the definitions of supertypes in java_model. It knows no
//! text, no tree and no body of a method.
#![tactic(auto)]

mod access;
mod answers;
mod header_names;
mod headers;
mod hierarchy;
mod inherited;
mod looking;
mod marks;
mod memory;
mod ranking;
mod reaching;
mod supers;
mod walking;

pub use access::{inherits_type, passes_on};
pub use header_names::Headers;
pub use hierarchy::Hierarchy;

#[cfg(test)]
mod tests;
