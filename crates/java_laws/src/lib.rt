//! Laws over the definitions of java_model that go across its topics.
//!
//! It promises laws alone: nothing runs here. A function's contract is a law, and its body is empty.
//! It stands on the definitions of java_model. It knows no parser, no index, no lock and no file.
#![tactic(auto)]

mod declaration_laws;
mod key_laws;
mod order_laws;
mod preselection;
mod reuse_laws;

pub use declaration_laws::{
    bindings_are_there, constructors_are_bound, constructors_are_of_their_class,
    declarations_are_bound, fields_are_bound, methods_are_bound,
};
pub use key_laws::{bindings_are_of_their_kind, references_have_keys};
pub use order_laws::{
    occurrences_are_strict, occurrences_are_unique, occurrences_of_documents_are_unique,
    occurrences_stand_in_order,
};
pub use preselection::{
    fitting_documents_are_preselected, fitting_occurrences_have_keys, fitting_references_have_keys,
    matches_are_of_candidates,
};
pub use reuse_laws::{answers_hold_again, look_ups_have_asked};
