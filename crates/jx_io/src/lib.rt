//! Sources and sinks of bytes, and counts of steps.
//!
//! It promises that a call takes or appends exactly the bytes that it says, that a fault is answered
//! only where the count of faults of the object that was handed in rose in that call, that a source
//! without an end is left one byte past the limit, and that a step counted is a step added.
//! It stands on std, and on `thiserror` for the texts of its faults. The adapters for standard input
//! and output are the trusted edge: they show no bytes to contracts, since no contract can say what a terminal
//! gives or takes.
//! It doesn't know what the bytes mean, nor what a step stands for.
#![tactic(auto)]

mod fault;
mod memory;
mod sink;
mod source;
mod standard;
mod steps;
mod tally;
mod whole;

pub use fault::{IoFault, ReadAllFault};
pub use memory::{MemSink, MemSource};
pub use sink::Sink;
pub use source::Source;
pub use standard::{StdSink, StdSource};
pub use steps::Steps;
pub use whole::{read_all, write_whole};

#[cfg(test)]
mod tests;
