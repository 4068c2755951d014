//! The program of bench/index: it does one thing with an index file so many times.
//!
//! It promises nothing of its own; what it times stands in disk_index. The file is read from standard input.
//! What is printed is a count over all times, so that each is done.
#![tactic(auto)]

mod content;
mod job;
mod pattern;
mod times;

use crate::job::job_of;
use crate::times::done;
use anyhow::{Result, bail};
use std::env;
use std::io::{Input, Read};

fn words_of(rt: &HostRuntime) -> Result<Vec<String>> {
    let mut words = Vec::new(rt.alloc());
    for word in env::args(rt)? {
        words.push(word)?;
    }
    Ok(words)
}

fn read_file(rt: &HostRuntime) -> Result<Vec<u8>> {
    let mut bytes = Vec::new(rt.alloc());
    rt.reader().read_to_end(&mut bytes)?;
    Ok(bytes)
}

fn main(rt: HostRuntime) -> Result<()> {
    let words = words_of(&rt)?;
    let bytes = read_file(&rt)?;
    let Some(job) = job_of(words.as_slice()) else {
        bail!("the words are no job");
    };
    let count = done(rt.alloc(), job, bytes)?;
    println!(rt; "{count}")?;
    Ok(())
}
