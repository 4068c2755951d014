ghost use Rattle.std.specs.Prelude.{◌≡◌, ◌++◌, ◌+◌, ◌*◌, ◌^◌, ◌<◌, ◌≤◌, ℕ, map, length, slice_index, IfOk, IfErr, MatchOption};
ghost use Rattle.byteorder.specs.Endian.{big_bytes};
ghost use Rattle.java_model.specs.IndexFile.Spelling.{mark, numbers_bytes, IsIndexFile};
ghost use Rattle.disk_index.specs.Written.{HasContent, IsTooLong};

use crate::fault::EncodeFault;
use crate::fields::MARK;
use crate::put::{put_4, put_entries, put_offsets};
use crate::spelled::{SpelledWords, spelled};
use java_tree::{IndexEntry, Row};
use std::alloc::{AllocError, Global};

/// The most bytes of an index file.
pub const MAX_IMAGE: usize = 67_108_864;

/// The length of a file whose entries and words take so many bytes, unless it passes all numbers.
fn file_length(entries: usize, blocks: usize, words: usize) -> Option<usize>
    ensures { MatchOption result (2 ^ 64 ≤ 12 + (entries + 4 * blocks) + words) (λ n. n ≡ 12 + (entries + 4 * blocks) + words) }
{
    let offsets = blocks.checked_mul(4)?;
    let table = entries.checked_add(offsets)?;
    let start = table.checked_add(12)?;
    start.checked_add(words)
}

/// The parts of a file one after the other.
fn assembled(
    alloc: Global,
    count: usize,
    entries: &[u8],
    words: &SpelledWords,
) -> Result<Vec<u8>, AllocError>
    requires first { 12 + (length entries.now + 4 * length words.now.starts.items) < 2 ^ 64 }
    requires starts { (k : ℕ) → k < length words.now.starts.items
        → 12 + (length entries.now + 4 * length words.now.starts.items) + slice_index words.now.starts.items k < 2 ^ 64 }
    ensures { IfOk result (λ bytes. bytes.items ≡ mark ++ big_bytes 4 count ++ entries.now ++ big_bytes 4 words.now.count
        ++ numbers_bytes (map (λ start. 12 + (length entries.now + 4 * length words.now.starts.items) + start) words.now.starts.items)
        ++ words.now.bytes.items) }
{
    let starts = words.starts.as_slice();
    let mut bytes = Vec::from_slice(alloc, &MARK)?;
    put_4(&mut bytes, count)?;
    bytes.extend_from_slice(entries)?;
    put_4(&mut bytes, words.count)?;
    put_offsets(&mut bytes, 12 + (entries.len() + 4 * starts.len()), starts)?;
    bytes.extend_from_slice(words.bytes.as_slice())?;
    Ok(bytes)
}

/// The file of entries, which strictly rise by their paths, and of rows, which strictly rise by their
/// words and then by their entries. `TooLong` exactly where it would pass `MAX_IMAGE`.
pub fn encode(alloc: Global, entries: &[IndexEntry], rows: &[Row]) -> Result<Vec<u8>, EncodeFault>
    requires { HasContent entries.now rows.now }
    ensures file { IfOk result (λ bytes. IsIndexFile bytes.items entries.now rows.now) }
    ensures short { IfOk result (λ bytes. length bytes.items ≤ MAX_IMAGE) }
    ensures fault { IfErr result (IsTooLong entries.now rows.now) }
{
    let mut front = Vec::new(alloc);
    put_entries(&mut front, entries)?;
    let words = spelled(alloc, rows)?;
    let Some(length) = file_length(
        front.as_slice().len(),
        words.starts.as_slice().len(),
        words.bytes.as_slice().len(),
    ) else {
        return Err(EncodeFault::NoMemory);
    };
    if length > MAX_IMAGE {
        return Err(EncodeFault::TooLong(length as u64));
    }
    let bytes = assembled(alloc, entries.len(), front.as_slice(), &words)?;
    Ok(bytes)
}
