//! Disks with files by number: what a read gives, and what a crash at any moment may leave.
//!
//! It promises that a call that fails counts one fault of the disk that was handed in, and one that succeeds
//! none, what each call leaves to reads, and what a crash at each moment may leave: between two syncs each
//! written range, and every byte past the shortest length that the file had, may hold anything. It stands on
//! std, on `thiserror` for the text of its fault, and on jx_io's words for counts. The disk over a folder is
//! the trusted edge: it shows no bytes to contracts. It doesn't know what the bytes mean.
#![tactic(auto)]

mod crash;
mod dir_disk;
mod disk;
mod folder;
mod memory;
mod record;

pub use dir_disk::DirDisk;
pub use disk::{Disk, DiskFault};
pub use memory::MemDisk;

#[cfg(test)]
mod tests;
