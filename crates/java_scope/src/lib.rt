//! What is in scope at a place of a unit, and what names mean there (JLS 6.3, 6.5).
//!
//! It promises that a type name, an ambiguous name and each of its identifiers mean at a place exactly what they are
//! defined to mean there, and that each part of a unit brings exactly into scope what it is defined to.
//! It stands on the environment of java_env and on the nodes of java_nodes. It knows no expression and no overload.
#![tactic(auto)]

mod around;
mod bounds;
mod created;
mod entry;
mod following;
mod kinds;
mod name_kinds;
mod places;
mod scope;
mod scoping;
mod table;
mod type_in_node;
mod type_names;
mod unit_context;
mod variables;

pub use around::{bodies, reaching_types, this_type};
pub use created::{anonymous_number, created_kinds, created_type};
pub use kinds::selected_field;
pub use name_kinds::{ambiguous_kinds, classify, simple_kind};
pub use places::{classify_at, resolve_type};
pub use scope::Scope;
pub use scoping::{leaves, opens};
pub use type_names::{element_at, resolve_at, spelled_name, type_at_place, type_name_kinds};
pub use unit_context::UnitContext;
pub use variables::variable_kind;
