//! The nodes of a unit's tree, and what lies directly inside each.
//!
//! It promises that the node with a number inside another is the one that the model has there, and that there is none
//! exactly past the last. A node is found in constant time, but for the type with a `{`, which takes a binary search.
//! It stands on the trees of java_tree and on the definition of their nodes in java_model. It knows no scope, no
//! environment and no text.
#![tactic(auto)]

mod children;
mod in_expressions;
mod in_members;
mod in_statements;
mod in_types;
mod laws;
mod laying;
mod lists;
mod node;
mod numbered;
mod numbered_type;
mod root;
mod tree;
mod unit_types;

pub use laws::spots_are_nodes;
pub use node::Node;
pub use numbered_type::NumberedType;
pub use root::Root;
pub use tree::Tree;
pub use unit_types::UnitTypes;

#[cfg(test)]
mod tests;
