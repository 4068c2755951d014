//! What the Java language and the search mean by their words: definitions, and laws about them.
//!
//! It promises laws alone: nothing runs here. A function's contract is a law, and its body is empty.
//! It stands on java_tree's types and on unicode_ident's properties of characters. It knows no parser,
//! no index, no lock and no file.
#![tactic(auto)]

mod grammar_laws;
mod index_file;
mod lexical_laws;
mod match_laws;
mod names_laws;
mod place_laws;

pub use grammar_laws::{
    expression_ends, expression_has_tokens, expression_stands_alone, no_short_if_before_else,
    unit_has_each_brace, unit_has_outline,
};
pub use index_file::{
    faults_exclude_index_files, index_file_or_fault, index_files_are_read, index_files_are_unique,
};
pub use lexical_laws::{
    faults_are_unique, faults_exclude_tokens, faults_lie_inside, inputs_are_unique, spans_rise,
    tokens_are_unique, tokens_or_fault,
};
pub use match_laws::{
    environments_are_unique, fitting_declarations_are_admitted, fitting_references_are_admitted,
};
pub use names_laws::{
    chosen_method_fits, fields_have_their_name, header_types_have_their_name,
    inherited_fields_are_of_supers, inherited_methods_are_of_supers, inherited_types_are_of_supers,
    member_types_have_their_name, methods_have_their_name, overridden_methods_are_alike,
    resolved_types_have_their_name, sub_is_transitive, supertypes_have_no_cycle,
};
pub use place_laws::{
    calls_are_counted, constructor_is_declared, field_is_declared, kinds_are_unique,
    method_is_declared, names_are_unique, occurrences_are_alike, references_name_what_they_mean,
    type_is_declared, type_names_are_unique, types_are_unique,
};
