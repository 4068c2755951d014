//! Scripts and outputs: what bytes say, and the bytes of replies.
//!
//! It promises that bytes are read as exactly the script that they spell, or refused where they spell none, that they
//! spell one at most, and that what it appends is the text of a report or of a refusal.
//! It stands on java_tree's types and on java_model's documents, matches and patterns. It knows no Java text, no
//! environment, no source and no sink.
#![tactic(auto)]

mod checks;
mod fault;
mod fields;
mod laws;
mod printing;
mod read;
mod reading;
mod refusal;
mod replies;
mod script;
mod sorting;
mod words;

pub use fault::ScriptFault;
pub use laws::one_script;
pub use read::read_script;
pub use refusal::Refusal;
pub use replies::{push_journal, push_refusal, push_report};
pub use script::{MAX_SCRIPT, Script, ScriptDoc, Search};
