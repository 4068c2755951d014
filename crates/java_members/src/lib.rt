//! The members that types have by their names: those that they declare, and those that they inherit.
//!
//! It promises that the member types and the fields of a name that a type has, and what type names mean once these are
//! known, are answered exactly as defined, and that no call is as deep as a chain of types.
//! It stands on the types and supertypes of java_supers, and on the definitions of members in java_model. It knows no
//! text, no tree and no body of a method.
#![tactic(auto)]

mod answers;
mod finding_fields;
mod finding_types;
mod inherits;
mod member;
mod ordering;
mod resolving;
mod supertypes;
mod walk;

pub use finding_fields::{declared_fields, field_named, fields};
pub use finding_types::member_types;
pub use inherits::Inherits;
pub use member::Member;
pub use resolving::{import_type, kinds_in_import, resolve, resolve_in_body, type_name_kinds};
pub use walk::members_by;
