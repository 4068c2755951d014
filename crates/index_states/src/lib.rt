//! The state file of a store: which containers it holds, in cells that count only where their gate is open.
//!
//! It promises what `load` reads, and for each part of a save what a crash since its start may leave. It
//! stands on jx_disk for what a crash may leave, on java_model for what a cell says, on jx_io's words for
//! counts, and on `byteorder` for its numbers. It knows no index and no search.
#![tactic(auto)]

mod cell;
mod fault;
mod layout;
mod loading;
mod parts;
mod readiness;
mod reading;
mod states;

pub use cell::{Cell, spell_cell};
pub use fault::StateFault;
pub use layout::{CELL_BYTES, LAST_GENERATION, LONGEST_IMAGE, PAIRS};
pub use loading::{load, read_slot};
pub use parts::{close_cell, open_cell, write_cell, write_slot};
pub use readiness::make_ready;
pub use states::States;
