//! Slots and cells that were damaged: what reopening finds, and the save after it.
use crate::disks::{STATE, cell, image, left, put, with_cells, with_files, zeros};
use crate::index_files::replaced;
use crate::shown::{reopened, saved, store};
use jx_disk::MemDisk;
use std::alloc::Global;
use std::test::Fail;

/// What a save of `src` answers on a disk, and what reopening finds after it.
fn saved_next(alloc: Global, disk: MemDisk) -> Result<String, Fail> {
    let mut store = store(alloc, disk)?;
    let answer = saved(alloc, &mut store, "src", &image(5))?;
    let found = reopened(alloc, store.into_disk())?;
    Ok(format!(in alloc; "{answer}: {found}")?)
}

/// What reopening finds on a disk, and the same after the next save.
fn told(alloc: Global, disk: &MemDisk) -> Result<(String, String), Fail> {
    let found = reopened(alloc, left(alloc, disk, 0, None)?)?;
    let next = saved_next(alloc, left(alloc, disk, 0, None)?)?;
    Ok((found, next))
}

/// A place in an image, how many bytes are taken out there, those that are put there, and the length that
/// the cell says; what is found.
const IMAGES: [(usize, usize, &[u8], u64, &str); 18] = [
    (0, 53, b"", 53, "damaged 1 0"),
    (3, 1, b"9", 53, "damaged 1 0"),
    (15, 1, b"!", 53, "damaged 1 10"),
    (16, 8, b"\x40\0\0\0\0\0\0\x01", 53, "damaged 1 16"),
    (31, 1, b"\x21", 53, "damaged 1 28"),
    (35, 1, b"\x01", 53, "damaged 1 32"),
    (40, 1, b"\0", 53, "damaged 1 40"),
    (42, 1, b"-", 53, "damaged 1 40"),
    (48, 1, b"\0", 53, "damaged 1 45"),
    (52, 1, b"\x01", 53, "damaged 1 49"),
    (52, 1, b"", 53, "damaged 1 52"),
    (53, 0, b"\0", 54, "damaged 1 53"),
    (3, 1, b"1", 53, "old 1"),
    (0, 53, b"JXF1", 53, "damaged 1 4"),
    (53, 0, b"xyz", 53, "saved 1 [A.java 1 ]"),
    (0, 0, b"", 0, "damaged 1 0"),
    (0, 0, b"", 52, "damaged 1 52"),
    (0, 0, b"", 54, "damaged 1 53"),
];

#[test]
fn images(rt: HostRuntime) -> Result<(), Fail> {
    for (at, cut, bytes, length, want) in &IMAGES {
        let changed = replaced(rt.alloc(), &image(1), *at, *cut, bytes)?;
        let disk = with_cells(rt.alloc(), &[cell(1, 1, *length, "src")], &changed)?;
        let (found, next) = told(rt.alloc(), &disk)?;
        let want = format!(in rt.alloc(); "src {want}; ")?;
        assert_eq!(rt; found.as_str(), want.as_str());
        assert_eq!(rt; next.as_str(), "2: src saved 2 [A.java 5 ]; ", "{want}");
    }
    Ok(())
}

/// Of a disk with a cell of `src`: the ready byte, the length of the state file, the cell's last byte, and
/// what the next save says.
const UNHELD: [(u8, usize, u8); 5] = [
    (1, STATE, 1),
    (1, STATE - 1, 0),
    (1, STATE + 1, 0),
    (0, STATE, 0),
    (2, STATE, 0),
];

fn unheld(alloc: Global, ready: u8, length: usize, last: u8) -> Result<MemDisk, Fail> {
    let mut state = zeros(alloc, length)?;
    put(&mut state, 0, &cell(1, 1, 53, "src"));
    put(&mut state, 255, &[last]);
    with_files(alloc, &[(0, &[ready]), (1, &state), (2, &image(1))])
}

#[test]
fn not_held(rt: HostRuntime) -> Result<(), Fail> {
    for (ready, length, last) in &UNHELD {
        let disk = unheld(rt.alloc(), *ready, *length, *last)?;
        let (found, next) = told(rt.alloc(), &disk)?;
        assert_eq!(rt; found.as_str(), "");
        assert_eq!(rt; next.as_str(), "1: src saved 1 [A.java 5 ]; ");
    }
    Ok(())
}
