//! The tables of the store's tests: files that were changed, saves that were stopped, calls that fail.
//!
//! It holds tests alone. Each row's answer comes from the definition of the files, and none from a run.
#![tactic(auto)]

#[cfg(test)]
mod crashes;
#[cfg(test)]
mod disks;
#[cfg(test)]
mod failing;
#[cfg(test)]
mod folder;
#[cfg(test)]
mod index_files;
#[cfg(test)]
mod limits;
#[cfg(test)]
mod shown;
#[cfg(test)]
mod slots;
#[cfg(test)]
mod state_files;
#[cfg(test)]
mod words;
