//! What type names mean, given the answers about member types.
//!
//! It promises that a type name in a scope and its identifiers, the name of an import, and the scopes of a header and of
//! a body mean exactly what they are defined to mean, for each way to answer which member types of a name a type has.
//! It stands on the types of java_types by their names, and on the definitions of type names in java_model. It knows no
//! supertypes: who asks it tells what a type inherits.
#![tactic(auto)]

mod after;
mod asks;
mod fault;
mod header;
mod imports;
mod kinds;
mod meaning;
mod resolving;
mod type_bound;
mod within;

pub use after::import_type;
pub use asks::Asks;
pub use fault::AskFault;
pub use header::{body_bounds, header_bounds};
pub use imports::{each_once, is_among};
pub use kinds::{kinds_in_import, type_name_kinds};
pub use meaning::only_if;
pub use resolving::resolve;
pub use type_bound::TypeBound;
