//! Saves that are stopped during each of their calls, and opened again.
use crate::disks::{STATE, cell, empty, image, left, put, with_files, zeros};
use crate::shown::{marked, reopened, saved, store};
use jx_disk::MemDisk;
use std::alloc::Global;
use std::test::Fail;

/// A disk that was closed after `lib` and then so many images of `src` were saved, each of its number.
fn after_saves(alloc: Global, saves: u8) -> Result<MemDisk, Fail> {
    let mut store = store(alloc, empty(alloc, &[])?)?;
    saved(alloc, &mut store, "lib", &image(9))?;
    for number in 0..saves {
        saved(alloc, &mut store, "src", &image(number + 1))?;
    }
    let disk = store.into_disk();
    left(alloc, &disk, disk.made(), None)
}

/// The same, opened again, and then with one more save that was answered.
fn with_save(alloc: Global, saves: u8) -> Result<MemDisk, Fail> {
    let mut store = store(alloc, after_saves(alloc, saves)?)?;
    saved(alloc, &mut store, "src", &image(saves.saturating_add(1)))?;
    Ok(store.into_disk())
}

/// The same with a mark.
fn with_mark(alloc: Global, saves: u8) -> Result<MemDisk, Fail> {
    let mut store = store(alloc, after_saves(alloc, saves)?)?;
    marked(alloc, &mut store, "src")?;
    Ok(store.into_disk())
}

/// A letter for what is found: `-` for no container; the generation of `src`, if it has one, where it is
/// whole; `A` to `C` for its marks. `lib` has to be as it was.
pub(crate) fn letter(found: &str) -> char {
    match found {
        "" => '-',
        "lib saved 1 [A.java 9 ]; " => '0',
        "lib saved 1 [A.java 9 ]; src saved 1 [A.java 1 ]; " => '1',
        "lib saved 1 [A.java 9 ]; src saved 2 [A.java 2 ]; " => '2',
        "lib saved 1 [A.java 9 ]; src saved 3 [A.java 3 ]; " => '3',
        "lib saved 1 [A.java 9 ]; src marked 1; " => 'A',
        "lib saved 1 [A.java 9 ]; src marked 2; " => 'B',
        "lib saved 1 [A.java 9 ]; src marked 3; " => 'C',
        _ => '?',
    }
}

/// What is found after a crash during each call of a disk, and after the last.
fn row(alloc: Global, disk: &MemDisk, fill: Option<u8>) -> Result<String, Fail> {
    let mut row = String::new(alloc);
    for calls in 0..=disk.made() {
        let found = reopened(alloc, left(alloc, disk, calls, fill)?)?;
        row.push(letter(&found))?;
    }
    Ok(row)
}

/// A byte that takes the place of each pending one.
pub(crate) const FILLS: [Option<u8>; 4] = [None, Some(0), Some(1), Some(255)];

/// The rows of a disk for each fill.
fn rows(alloc: Global, disk: &MemDisk) -> Result<String, Fail> {
    let mut rows = String::new(alloc);
    for fill in &FILLS {
        rows.push_str(row(alloc, disk, *fill)?.as_str())?;
        rows.push(' ')?;
    }
    Ok(rows)
}

/// Reopening finds one container in five calls. The first save of another writes a closed cell: nine calls, of which
/// the last but one opens the gate.
#[test]
fn first_save(rt: HostRuntime) -> Result<(), Fail> {
    let rows = rows(rt.alloc(), &with_save(rt.alloc(), 0)?)?;
    assert_eq!(rt;
        rows.as_str(),
        "000000000000111 000000000000001 000000000000111 000000000000001 "
    );
    Ok(())
}

/// Reopening reads two images in six calls; the save takes nine, since the other cell is closed.
#[test]
fn second_save(rt: HostRuntime) -> Result<(), Fail> {
    let rows = rows(rt.alloc(), &with_save(rt.alloc(), 1)?)?;
    assert_eq!(rt;
        rows.as_str(),
        "1111111111111222 1111111111111112 1111111111111222 1111111111111112 "
    );
    Ok(())
}

/// The save takes eleven calls, since the other cell is open.
#[test]
fn third_save(rt: HostRuntime) -> Result<(), Fail> {
    let rows = rows(rt.alloc(), &with_save(rt.alloc(), 2)?)?;
    assert_eq!(rt;
        rows.as_str(),
        "222222222222222333 222222222222222223 222222222222222333 222222222222222223 "
    );
    Ok(())
}

/// A mark leaves the slot out: six calls.
#[test]
fn first_mark(rt: HostRuntime) -> Result<(), Fail> {
    let rows = rows(rt.alloc(), &with_mark(rt.alloc(), 0)?)?;
    assert_eq!(rt;
        rows.as_str(),
        "000000000AAA 00000000000A 000000000AAA 00000000000A "
    );
    Ok(())
}

#[test]
fn second_mark(rt: HostRuntime) -> Result<(), Fail> {
    let rows = rows(rt.alloc(), &with_mark(rt.alloc(), 1)?)?;
    assert_eq!(rt;
        rows.as_str(),
        "1111111111BBB 111111111111B 1111111111BBB 111111111111B "
    );
    Ok(())
}

/// Over an open cell it has eight calls.
#[test]
fn third_mark(rt: HostRuntime) -> Result<(), Fail> {
    let rows = rows(rt.alloc(), &with_mark(rt.alloc(), 2)?)?;
    assert_eq!(rt;
        rows.as_str(),
        "222222222222CCC 22222222222222C 222222222222CCC 22222222222222C "
    );
    Ok(())
}

/// A disk that isn't ready, and has the cell of `src` in a state file of this length.
fn unready(alloc: Global, ready: &[u8], length: usize) -> Result<MemDisk, Fail> {
    let mut state = zeros(alloc, length)?;
    put(&mut state, 0, &cell(1, 7, 53, "src"));
    with_files(alloc, &[(0, ready), (1, &state), (2, &image(1))])
}

/// A disk on which nothing is ready; what is found at each moment of its opening.
fn opening(alloc: Global, disk: MemDisk) -> Result<String, Fail> {
    let opened = store(alloc, disk)?.into_disk();
    rows(alloc, &opened)
}

/// Nothing comes to count while a disk is made ready, in nine calls.
const IN_NINE: &str = "---------- ---------- ---------- ---------- ";

#[test]
fn makes_ready(rt: HostRuntime) -> Result<(), Fail> {
    let told = opening(rt.alloc(), empty(rt.alloc(), &[])?)?;
    assert_eq!(rt; told.as_str(), IN_NINE);
    Ok(())
}

#[test]
fn makes_ready_over_a_cell(rt: HostRuntime) -> Result<(), Fail> {
    let told = opening(rt.alloc(), unready(rt.alloc(), b"\0", STATE)?)?;
    assert_eq!(rt; told.as_str(), IN_NINE);
    Ok(())
}

/// A ready byte over a state file of another length is taken back first, in two calls more.
const IN_ELEVEN: &str = "------------ ------------ ------------ ------------ ";

#[test]
fn takes_ready_back_over_less(rt: HostRuntime) -> Result<(), Fail> {
    let told = opening(rt.alloc(), unready(rt.alloc(), b"\x01", 256)?)?;
    assert_eq!(rt; told.as_str(), IN_ELEVEN);
    Ok(())
}

#[test]
fn takes_ready_back_over_more(rt: HostRuntime) -> Result<(), Fail> {
    let told = opening(rt.alloc(), unready(rt.alloc(), b"\x01", STATE + 1)?)?;
    assert_eq!(rt; told.as_str(), IN_ELEVEN);
    Ok(())
}
