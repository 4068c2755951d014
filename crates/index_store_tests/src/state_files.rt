//! State files: which cells count, and which of a pair is its newest.
use crate::disks::{STATE, cell, put, with_cells, with_files, zeros};
use crate::shown::reopened;
use index_states::{Cell, load};
use jx_disk::MemDisk;
use std::alloc::{AllocError, Global};
use std::test::Fail;

/// A cell: its pair and side, its kind, its generation, its image's length and its name.
fn shown(alloc: Global, cell: &Cell) -> Result<String, AllocError> {
    let kind = if cell.rebuild { "rebuild" } else { "index" };
    format!(in alloc;
        " {}.{} {kind} {} {} {}",
        cell.pair,
        cell.side,
        cell.generation,
        cell.length,
        cell.name.as_str()
    )
}

fn add(alloc: Global, told: &mut String, cell: &Option<Cell>) -> Result<(), AllocError> {
    if let Some(cell) = cell {
        told.push_str(shown(alloc, cell)?.as_str())?;
    }
    Ok(())
}

/// Whether a disk is ready, and the newest cells of its pairs.
fn loaded(alloc: Global, mut disk: MemDisk) -> Result<String, Fail> {
    let states = load(&mut disk, alloc)?;
    let ready = if states.ready { "ready" } else { "unready" };
    let mut told = String::from_str(alloc, ready)?;
    for cell in states.cells.as_slice() {
        add(alloc, &mut told, cell)?;
    }
    Ok(told)
}

/// The bytes of the ready file, the length of the state file, and what is told of them.
const READY: [(&[u8], usize, &str); 12] = [
    (b"", 0, "unready"),
    (b"", STATE, "unready"),
    (b"\x01", 0, "unready"),
    (b"\x01", STATE - 1, "unready"),
    (b"\x01", STATE + 1, "unready"),
    (b"\x01", 2 * STATE, "unready"),
    (b"\0", STATE, "unready"),
    (b"\x02", STATE, "unready"),
    (b"\xff", STATE, "unready"),
    (b"\0\x01", STATE, "unready"),
    (b"\x01", STATE, "ready 0.0 index 1 53 src"),
    (b"\x01\0\x07", STATE, "ready 0.0 index 1 53 src"),
];

fn with_ready(alloc: Global, ready: &[u8], length: usize) -> Result<MemDisk, Fail> {
    let mut state = zeros(alloc, length)?;
    put(&mut state, 0, &cell(1, 1, 53, "src"));
    with_files(alloc, &[(0, ready), (1, &state)])
}

#[test]
fn ready(rt: HostRuntime) -> Result<(), Fail> {
    for (ready, length, want) in &READY {
        let disk = with_ready(rt.alloc(), ready, *length)?;
        let told = loaded(rt.alloc(), disk)?;
        assert_eq!(rt; told.as_str(), *want, "{ready:?} {length}");
    }
    Ok(())
}

/// A place in the cell of an image of 53 bytes and of `src` at generation 1, and the byte that is put there.
const BYTES: [(usize, u8, &str); 20] = [
    (0, 0, "ready"),
    (0, 2, "ready"),
    (0, 255, "ready"),
    (1, 0, "ready"),
    (1, 2, "ready"),
    (1, 3, "ready"),
    (9, 0, "ready"),
    (9, 255, "ready 0.0 index 255 53 src"),
    (2, 0x40, "ready"),
    (2, 0x80, "ready"),
    (10, 1, "ready"),
    (14, 4, "ready"),
    (14, 3, "ready 0.0 index 1 50331701 src"),
    (17, 0, "ready 0.0 index 1 0 src"),
    (18, 0, "ready"),
    (18, 2, "ready"),
    (18, 4, "ready"),
    (18, 255, "ready"),
    (22, 1, "ready"),
    (255, 1, "ready"),
];

fn with_byte(alloc: Global, at: usize, byte: u8) -> Result<MemDisk, Fail> {
    let mut changed = cell(1, 1, 53, "src");
    put(&mut changed, at, &[byte]);
    with_cells(alloc, &[changed], b"")
}

#[test]
fn bytes(rt: HostRuntime) -> Result<(), Fail> {
    for (at, byte, want) in &BYTES {
        let disk = with_byte(rt.alloc(), *at, *byte)?;
        let told = loaded(rt.alloc(), disk)?;
        assert_eq!(rt; told.as_str(), *want, "byte {at} is {byte}");
    }
    Ok(())
}

/// A kind, a generation, an image's length and a name, and what is told of the cell.
const CELLS: [(u8, u64, u64, &str, &str); 16] = [
    (
        1,
        4_611_686_018_427_387_904,
        53,
        "a",
        "ready 0.0 index 4611686018427387904 53 a",
    ),
    (1, 4_611_686_018_427_387_905, 53, "a", "ready"),
    (1, 1, 67_108_864, "a", "ready 0.0 index 1 67108864 a"),
    (1, 1, 67_108_865, "a", "ready"),
    (2, 1, 0, "a", "ready 0.0 rebuild 1 0 a"),
    (2, 1, 1, "a", "ready"),
    (
        2,
        4_611_686_018_427_387_904,
        0,
        "a",
        "ready 0.0 rebuild 4611686018427387904 0 a",
    ),
    (2, 0, 0, "a", "ready"),
    (1, 1, 53, "", "ready"),
    (1, 1, 53, "a b", "ready"),
    (1, 1, 53, "a,b", "ready"),
    (1, 1, 53, "*", "ready"),
    (1, 1, 53, "a\x7f", "ready"),
    (1, 1, 53, "a\t", "ready"),
    (1, 1, 53, "a\0", "ready"),
    (1, 1, 53, "\u{e9}/!", "ready 0.0 index 1 53 \u{e9}/!"),
];

#[test]
fn cells(rt: HostRuntime) -> Result<(), Fail> {
    for (kind, generation, length, name, want) in &CELLS {
        let changed = cell(*kind, *generation, *length, name);
        let told = loaded(rt.alloc(), with_cells(rt.alloc(), &[changed], b"")?)?;
        assert_eq!(rt; told.as_str(), *want, "{kind} {generation} {length} {name}");
    }
    Ok(())
}

/// A name of so many bytes has the length that a container's may have.
const LENGTHS: [(usize, bool); 4] = [(1, true), (200, true), (201, false), (237, false)];

#[test]
fn names(rt: HostRuntime) -> Result<(), Fail> {
    for (length, counts) in &LENGTHS {
        let letters = Vec::from_elem(rt.alloc(), b'x', *length)?;
        let name = String::from_utf8(letters)?;
        let long = cell(2, 1, 0, &name);
        let told = loaded(rt.alloc(), with_cells(rt.alloc(), &[long], b"")?)?;
        assert_eq!(rt; told.len() > *length, *counts, "{length}");
    }
    let mut broken = cell(2, 1, 0, "a?");
    put(&mut broken, 20, b"\xff");
    let told = loaded(rt.alloc(), with_cells(rt.alloc(), &[broken], b"")?)?;
    assert_eq!(rt; told.as_str(), "ready");
    Ok(())
}

/// The gates and generations of the two cells of a pair; the newest of them.
const PAIRS: [(u8, u64, u8, u64, &str); 10] = [
    (1, 1, 1, 2, "ready 0.1 rebuild 2 0 b"),
    (1, 2, 1, 1, "ready 0.0 rebuild 2 0 a"),
    (1, 7, 1, 7, "ready 0.0 rebuild 7 0 a"),
    (1, 255, 1, 256, "ready 0.1 rebuild 256 0 b"),
    (1, 1, 0, 2, "ready 0.0 rebuild 1 0 a"),
    (0, 2, 1, 1, "ready 0.1 rebuild 1 0 b"),
    (0, 1, 0, 2, "ready"),
    (1, 1, 1, 0, "ready 0.0 rebuild 1 0 a"),
    (
        1,
        1,
        1,
        4_611_686_018_427_387_905,
        "ready 0.0 rebuild 1 0 a",
    ),
    (
        1,
        1,
        1,
        4_611_686_018_427_387_904,
        "ready 0.1 rebuild 4611686018427387904 0 b",
    ),
];

#[test]
fn pairs(rt: HostRuntime) -> Result<(), Fail> {
    for (gate, generation, other, later, want) in &PAIRS {
        let mut first = cell(2, *generation, 0, "a");
        let mut second = cell(2, *later, 0, "b");
        put(&mut first, 0, &[*gate]);
        put(&mut second, 0, &[*other]);
        let told = loaded(rt.alloc(), with_cells(rt.alloc(), &[first, second], b"")?)?;
        assert_eq!(rt; told.as_str(), *want);
    }
    Ok(())
}

/// A pair whose name an earlier one has is loaded, and passed over by a store.
#[test]
fn passed_over(rt: HostRuntime) -> Result<(), Fail> {
    let alloc = rt.alloc();
    let older = cell(2, 1, 0, "b");
    let cells = [
        cell(2, 2, 0, "a"),
        older,
        cell(2, 9, 0, "a"),
        [0; 256],
        older,
    ];
    let told = loaded(alloc, with_cells(alloc, &cells, b"")?)?;
    assert_eq!(rt;
        told.as_str(),
        "ready 0.0 rebuild 2 0 a 1.0 rebuild 9 0 a 2.0 rebuild 1 0 b"
    );
    let told = reopened(alloc, with_cells(alloc, &cells, b"")?)?;
    assert_eq!(rt; told.as_str(), "a marked 2; b marked 1; ");
    Ok(())
}

/// The last cell of the file, and none after it.
#[test]
fn last_cell(rt: HostRuntime) -> Result<(), Fail> {
    let mut state = zeros(rt.alloc(), STATE)?;
    put(&mut state, STATE - 256, &cell(2, 3, 0, "z"));
    let disk = with_files(rt.alloc(), &[(0, &[1]), (1, &state)])?;
    let told = loaded(rt.alloc(), disk)?;
    assert_eq!(rt; told.as_str(), "ready 255.1 rebuild 3 0 z");
    Ok(())
}
