//! The occurrences of a unit: what its places declare and refer to, and what each is bound to.
//!
//! It promises exactly what the places of a unit name, each place once, in the order of their spans.
//! It stands on the nodes of java_nodes, on what is in scope at them (java_scope), and on what expressions are bound to
//! (java_bind_expr). It knows no text and no pattern.
#![tactic(auto)]

mod bindings;
mod calls;
mod chains;
mod constructors;
mod creations;
mod declarations;
mod declared;
mod finishing;
mod firsts;
mod gathering;
mod making;
mod name_parts;
mod names;
mod node_names;
mod order;
mod role;
mod runs;
mod type_uses;
mod walking;

pub use gathering::occurrences;
