ghost use Rattle.std.specs.Prelude.{◌≡◌, IfOk};
ghost use Rattle.disk_index.specs.Part.{IsWhole};
ghost use Rattle.disk_index.specs.Written.{HasContent};

use anyhow::{Result, bail};
use disk_index::DiskPart;
use java_tree::{IndexEntry, Row, Text};
use sqlite_items::Items;
use std::alloc::{AllocError, Global};

/// The entries and the rows of a file.
#[derive(Debug, Drop)]
pub struct FileContent {
    pub entries: Items<IndexEntry>,
    pub rows: Items<Row>,
}

/// The part of a file.
pub fn part_of(alloc: Global, bytes: Vec<u8>) -> Result<DiskPart>
    ensures { IfOk result (IsWhole bytes.items) }
{
    match DiskPart::parse(alloc, bytes) {
        Ok(part) => Ok(part),
        Err(_) => bail!("no index file"),
    }
}

/// The entries of a part.
fn entries_of(alloc: Global, part: &DiskPart) -> Result<Items<IndexEntry>, AllocError>
    ensures { IfOk result (λ entries. entries ≡ part.now.entries) }
{
    let mut entries = Items::new(alloc);
    for at in 0..part.entries() {
        entries.push(IndexEntry {
            path: Text::from_str(alloc, part.path(at))?,
            stamp: part.stamp(at),
        })?;
    }
    Ok(entries)
}

/// What a file holds.
pub fn content_of(alloc: Global, bytes: Vec<u8>) -> Result<FileContent>
    ensures { IfOk result (λ content. HasContent content.entries content.rows) }
{
    let part = part_of(alloc, bytes)?;
    let entries = entries_of(alloc, &part)?;
    let rows = part.rows(alloc)?;
    Ok(FileContent { entries, rows })
}
