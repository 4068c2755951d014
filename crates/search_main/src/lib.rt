//! The top calls: a script is read whole, its searches are answered by a scan of its documents, and the
//! output is written whole.
//!
//! It promises that what it writes is a legal output of what it reads, and names the cause of each other
//! status. It stands on script_text, which knows the bytes of scripts and outputs; on java_document, which reads each
//! text; on java_env and java_bind, which know what names mean; on match_locator, which finds matches; and on the
//! source and the sink that it is lent. It knows no grammar, no file and no terminal.
#![tactic(auto)]

mod answer;
mod environment;
mod laws;
mod locating;
mod opening;
mod process;
mod reports;
mod status;
mod top;
mod words;

pub use laws::{one_answer, one_output};
pub use process::run_process;
pub use status::Status;
pub use top::batch;

#[cfg(test)]
mod tests;
