//! The environment of documents: their types, supertypes and members, and what type names mean in it.
#![tactic(auto)]

mod conversions;
mod declared;
mod env;
mod infos;
mod inherited;
mod kept;
mod known_types;
mod members;
mod names;
mod visibility;
mod walks;

pub use env::Env;
pub use visibility::{Visibility, member_visibility};
