//! Types as values: arrays, equality, primitive types and the words that spell them.
//!
//! It promises each answer exactly as java_model defines it. It knows no environment and no place.
#![tactic(auto)]

mod arrays;
mod equality;
mod primitives;
mod words;

pub use arrays::{array_of, component, element_type, with_dims};
pub use equality::{same_element, same_name, same_type, same_types};
pub use primitives::{primitive_named, same_primitive, spelled_primitive, widens};
pub use words::{copy_types, word_type};
