//! The types that documents declare, numbered through all documents in order.
//!
//! It promises that an environment is the list of its documents, that a type is known by its id as what its document
//! declares, and that a type is found by its document and number, and by its package and names, exactly where the
//! documents declare it. It tells which packages are known.
//! It stands on the outlines of java_tree and on the definition of environments in java_model. It knows no text, no
//! tree and no scope.
#![tactic(auto)]

mod around;
mod declared_type;
mod declared_types;
mod documents;
mod entry;
mod finding;
mod keys;
mod lookup;
mod named;
mod packages;
mod placed_outline;
mod qualification;
mod tables;

pub use around::types_around;
pub use declared_type::DeclaredType;
pub use declared_types::DeclaredTypes;
pub use documents::EnvDocs;
pub use keys::member_key;
pub use named::with_dots;
pub use placed_outline::PlacedOutline;

#[cfg(test)]
mod tests;
