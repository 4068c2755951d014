//! The types of expressions, and the methods and constructors that calls and creations are bound to, from the types of
//! the parts.
//!
//! It promises that a node of a unit has exactly the types that it is defined to have there, and that a call or a
//! creation is bound to exactly what it is defined to be. A chain of selectors or of operators is one pass.
//! It stands on the names of java_scope and on the choice of java_overload. It knows no text and goes through no tree.
#![tactic(auto)]

mod arithmetic;
mod calls;
mod chains;
mod conditionals;
mod creations;
mod literals;
mod parts;
mod values;
mod variables;

pub use calls::{
    call_after, call_in, chosen_at, constructor_in, enclosing_type, named_call, receiving_type,
    simple_call, super_call, super_of, super_type, this_class, type_before,
};
pub use chains::{chain_type, first_type, selector_type};
pub use creations::{anonymous_or, created_class, inner_class, inner_created};
pub use parts::{but_last, flat_types, last_name, part, sole};
pub use values::node_types;
pub use variables::{qualifying_type, variable_type, whole_kind};
