ghost use Rattle.disk_index.specs.Written.{HasContent};

use crate::content::{FileContent, content_of, part_of};
use crate::job::Job;
use crate::pattern::{Exact, Prefix};
use anyhow::{Result, bail};
use disk_index::encode;
use index_keys::Admit;
use std::alloc::Global;

/// Does a job with a file, and counts bytes, entries or answers over all times.
pub fn done(alloc: Global, job: Job<'_>, bytes: Vec<u8>) -> Result<u64> {
    match job {
        Job::Copy(times) => copied(alloc, bytes.as_slice(), times),
        Job::Parse(times) => parsed(alloc, bytes.as_slice(), times),
        Job::Encode(times) => encoded(alloc, bytes, times),
        Job::Prefix(times, name) => asked(alloc, &Prefix { name }, bytes, times),
        Job::Exact(times, name) => asked(alloc, &Exact { name }, bytes, times),
    }
}

fn copied(alloc: Global, bytes: &[u8], times: u32) -> Result<u64> {
    let mut sum = 0u64;
    for _ in 0..times {
        let copy = Vec::from_slice(alloc, bytes)?;
        sum = sum.wrapping_add(copy.len() as u64);
    }
    Ok(sum)
}

fn parsed(alloc: Global, bytes: &[u8], times: u32) -> Result<u64> {
    let mut sum = 0u64;
    for _ in 0..times {
        let part = part_of(alloc, Vec::from_slice(alloc, bytes)?)?;
        sum = sum.wrapping_add(part.entries() as u64);
    }
    Ok(sum)
}

fn length_encoded(alloc: Global, content: &FileContent) -> Result<usize>
    requires { HasContent content.now.entries content.now.rows }
{
    match encode(alloc, content.entries.as_slice(), content.rows.as_slice()) {
        Ok(bytes) => Ok(bytes.len()),
        Err(_) => bail!("no file"),
    }
}

fn encoded(alloc: Global, bytes: Vec<u8>, times: u32) -> Result<u64> {
    let content = content_of(alloc, bytes)?;
    let mut sum = 0u64;
    for _ in 0..times {
        sum = sum.wrapping_add(length_encoded(alloc, &content)? as u64);
    }
    Ok(sum)
}

fn asked<P: Admit>(alloc: Global, pattern: &P, bytes: Vec<u8>, times: u32) -> Result<u64> {
    let part = part_of(alloc, bytes)?;
    let mut sum = 0u64;
    for _ in 0..times {
        sum = sum.wrapping_add(part.query(alloc, pattern)?.len() as u64);
    }
    Ok(sum)
}
