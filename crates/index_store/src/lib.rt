//! A store of index images: each save is whole or not there, whatever crash comes.
//!
//! It promises that at every moment a crash leaves of each container what was acknowledged, or the whole
//! of a later save or mark that isn't acknowledged. It stands on index_states for the parts of a save and
//! on jx_disk for what a crash may leave. It knows no search.
#![tactic(auto)]

mod fault;
mod found;
mod opening;
mod place;
mod reply;
mod saving;
mod store;
mod table;

pub use fault::{ReopenFault, SaveFault};
pub use found::Found;
pub use reply::{SaveAnswer, SaveReply};
pub use store::Store;
