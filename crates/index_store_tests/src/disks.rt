//! Disks in memory with the files of a store, spelled by their bytes.
use jx_disk::{Disk, MemDisk};
use std::alloc::{AllocError, Global};
use std::test::Fail;

/// How many bytes the state file has.
pub(crate) const STATE: usize = 131_072;

/// Calls and bytes for which a disk has room.
const CALLS: usize = 200;

const BYTES: usize = 300_000;

/// The index file of the document `A.java`, which declares a class `A`.
const FILE: [u8; 53] = *b"JXF2\0\0\0\x01\
\0\x06A.java\0\0\0\0\0\0\0\x01\
\0\0\0\x01\0\0\0\x20\
\0\0\0\0\0\0\0\x05\x02A//c\0\0\0\x01\0\0\0\0";

/// The same with this stamp.
pub(crate) fn image(stamp: u8) -> [u8; 53] {
    let mut file = FILE;
    file[23] = stamp;
    file
}

/// A disk with room, without files, whose calls of these numbers fail.
pub(crate) fn empty(alloc: Global, failing: &[u64]) -> Result<MemDisk, AllocError> {
    let failing = Vec::from_slice(alloc, failing)?;
    MemDisk::new(alloc, CALLS, BYTES, failing)
}

/// Puts a piece over bytes from a place on, as far as they go.
pub(crate) fn put(bytes: &mut [u8], at: usize, piece: &[u8]) {
    if at < bytes.len() {
        let rest = &mut bytes[at..];
        let count = rest.len().min(piece.len());
        rest[..count].copy_from_slice(&piece[..count]);
    }
}

/// A cell with an open gate, of a kind, a generation, an image's length and a name.
pub(crate) fn cell(kind: u8, generation: u64, length: u64, name: &str) -> [u8; 256] {
    let mut cell = [0; 256];
    put(&mut cell, 0, &[1, kind]);
    put(&mut cell, 2, &generation.to_be_bytes());
    put(&mut cell, 10, &length.to_be_bytes());
    put(&mut cell, 18, &[name.len().min(255) as u8]);
    put(&mut cell, 19, name.as_bytes());
    cell
}

/// A state file without cells.
pub(crate) fn zeros(alloc: Global, length: usize) -> Result<Vec<u8>, AllocError> {
    Vec::from_elem(alloc, 0, length)
}

/// Files for a disk: each with its number and its bytes.
pub(crate) fn write(disk: &mut MemDisk, files: &[(u32, &[u8])]) -> Result<(), Fail> {
    for (file, bytes) in files {
        disk.write_at(*file, 0, bytes)?;
    }
    Ok(())
}

/// A disk with these files, which are stable, and none of whose calls was made.
pub(crate) fn with_files(alloc: Global, files: &[(u32, &[u8])]) -> Result<MemDisk, Fail> {
    let mut disk = empty(alloc, &[])?;
    write(&mut disk, files)?;
    left(alloc, &disk, disk.made(), None)
}

/// A disk whose state file begins with these cells, and which has this image in the slots of the first pair.
pub(crate) fn with_cells(
    alloc: Global,
    cells: &[[u8; 256]],
    image: &[u8],
) -> Result<MemDisk, Fail> {
    let mut state = zeros(alloc, STATE)?;
    for (number, cell) in cells.iter().enumerate() {
        put(&mut state, number.saturating_mul(256), cell);
    }
    with_files(alloc, &[(0, &[1]), (1, &state), (2, image), (3, image)])
}

/// What a crash leaves during the call after so many.
pub(crate) fn left(
    alloc: Global,
    disk: &MemDisk,
    calls: u64,
    fill: Option<u8>,
) -> Result<MemDisk, Fail> {
    if calls > disk.made() {
        return Err(Fail::from("too many calls"));
    }
    Ok(disk.crash(alloc, calls, fill)?)
}
