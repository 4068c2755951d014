//! Saves and openings of which each call fails in turn.
use crate::crashes::{FILLS, letter};
use crate::disks::{STATE, cell, empty, image, left, put, write, zeros};
use crate::shown::{marked, reopened, saved, store};
use index_store::{ReopenFault, Store};
use jx_disk::MemDisk;
use std::alloc::{AllocError, Global};
use std::test::Fail;

/// The store of a disk whose calls of these numbers fail: nine calls make it ready, and nine save each of `lib`
/// and, where it is to be there, the first image of `src`.
fn begun(alloc: Global, failing: &[u64], saves: bool) -> Result<Store<MemDisk>, Fail> {
    let mut store = store(alloc, empty(alloc, failing)?)?;
    saved(alloc, &mut store, "lib", &image(9))?;
    if saves {
        saved(alloc, &mut store, "src", &image(1))?;
    }
    Ok(store)
}

/// How many calls of a disk failed, and what is found on it now, for each fill.
fn faults(alloc: Global, disk: &MemDisk) -> Result<String, Fail> {
    let mut told = format!(in alloc; "{} ", disk.faults())?;
    for fill in &FILLS {
        let found = reopened(alloc, left(alloc, disk, disk.made(), *fill)?)?;
        told.push(letter(&found))?;
    }
    Ok(told)
}

/// What a save of `src` answers.
fn failed_save(alloc: Global, failing: &[u64], saves: bool) -> Result<String, Fail> {
    let mut store = begun(alloc, failing, saves)?;
    let answer = saved(alloc, &mut store, "src", &image(if saves { 2 } else { 1 }))?;
    let left = faults(alloc, &store.into_disk())?;
    Ok(format!(in alloc; "{answer} {left}")?)
}

/// What a mark of `src` answers.
fn failed_mark(alloc: Global, failing: &[u64]) -> Result<String, Fail> {
    let mut store = begun(alloc, failing, true)?;
    let answer = marked(alloc, &mut store, "src")?;
    let left = faults(alloc, &store.into_disk())?;
    Ok(format!(in alloc; "{answer} {left}")?)
}

/// The same, and the save of the third image after it.
fn saved_again(alloc: Global, failing: &[u64], saves: bool) -> Result<String, Fail> {
    let mut store = begun(alloc, failing, saves)?;
    let failed = saved(alloc, &mut store, "src", &image(2))?;
    let answer = saved(alloc, &mut store, "src", &image(3))?;
    let found = reopened(alloc, store.into_disk())?;
    Ok(format!(in alloc; "{failed} {answer}: {found}")?)
}

/// A failed call of a save of a container leaves what was acknowledged; where the last sync fails, the gate is
/// written, and may have become open.
#[test]
fn saves(rt: HostRuntime) -> Result<(), Fail> {
    for call in 28..36u64 {
        let told = failed_save(rt.alloc(), &[call], true)?;
        assert_eq!(rt; told.as_str(), "disk 1 1111", "{call}");
    }
    let told = failed_save(rt.alloc(), &[36], true)?;
    assert_eq!(rt; told.as_str(), "disk 1 2121");
    let told = failed_save(rt.alloc(), &[37], true)?;
    assert_eq!(rt; told.as_str(), "2 0 2222");
    Ok(())
}

/// The same of the first save of a container.
#[test]
fn first_saves(rt: HostRuntime) -> Result<(), Fail> {
    for call in 19..27u64 {
        let told = failed_save(rt.alloc(), &[call], false)?;
        assert_eq!(rt; told.as_str(), "disk 1 0000", "{call}");
    }
    let told = failed_save(rt.alloc(), &[27], false)?;
    assert_eq!(rt; told.as_str(), "disk 1 1010");
    let told = failed_save(rt.alloc(), &[28], false)?;
    assert_eq!(rt; told.as_str(), "1 0 1111");
    Ok(())
}

/// The same of a mark.
#[test]
fn marks(rt: HostRuntime) -> Result<(), Fail> {
    for call in 28..33u64 {
        let told = failed_mark(rt.alloc(), &[call])?;
        assert_eq!(rt; told.as_str(), "disk 1 1111", "{call}");
    }
    let told = failed_mark(rt.alloc(), &[33])?;
    assert_eq!(rt; told.as_str(), "disk 1 B1B1");
    let told = failed_mark(rt.alloc(), &[34])?;
    assert_eq!(rt; told.as_str(), "2 0 BBBB");
    Ok(())
}

/// A save after a failed save has the generation after the last acknowledged one.
#[test]
fn saves_after(rt: HostRuntime) -> Result<(), Fail> {
    for call in 28..37u64 {
        let told = saved_again(rt.alloc(), &[call], true)?;
        let want = "disk 2: lib saved 1 [A.java 9 ]; src saved 2 [A.java 3 ]; ";
        assert_eq!(rt; told.as_str(), want, "{call}");
    }
    Ok(())
}

#[test]
fn first_saves_after(rt: HostRuntime) -> Result<(), Fail> {
    for call in 19..28u64 {
        let told = saved_again(rt.alloc(), &[call], false)?;
        let want = "disk 1: lib saved 1 [A.java 9 ]; src saved 1 [A.java 3 ]; ";
        assert_eq!(rt; told.as_str(), want, "{call}");
    }
    Ok(())
}

/// Two saves that fail at their first call.
#[test]
fn fails_twice(rt: HostRuntime) -> Result<(), Fail> {
    let told = saved_again(rt.alloc(), &[28, 29], true)?;
    assert_eq!(rt;
        told.as_str(),
        "disk disk: lib saved 1 [A.java 9 ]; src saved 1 [A.java 1 ]; "
    );
    Ok(())
}

/// What reopening answers, and what it finds on the disk that it gave back.
fn opened_twice(alloc: Global, disk: MemDisk) -> Result<String, AllocError> {
    match Store::reopen(alloc, disk) {
        Ok(_) => String::from_str(alloc, "opened"),
        Err(ReopenFault { disk, cause }) => {
            let faults = disk.faults();
            let found = reopened(alloc, disk)?;
            format!(in alloc; "{cause} {faults}: {found}")
        }
    }
}

/// A disk with a saved container, written in three calls.
fn held(alloc: Global, failing: u64) -> Result<MemDisk, Fail> {
    let mut disk = empty(alloc, &[failing])?;
    let mut state = zeros(alloc, STATE)?;
    put(&mut state, 0, &cell(1, 7, 53, "src"));
    write(&mut disk, &[(0, &[1]), (1, &state), (2, &image(4))])?;
    Ok(disk)
}

#[test]
fn openings(rt: HostRuntime) -> Result<(), Fail> {
    for call in 1..10u64 {
        let told = opened_twice(rt.alloc(), empty(rt.alloc(), &[call])?)?;
        assert_eq!(rt; told.as_str(), "the disk failed 1: ", "{call}");
    }
    for call in 4..9u64 {
        let told = opened_twice(rt.alloc(), held(rt.alloc(), call)?)?;
        let want = "the disk failed 1: src saved 7 [A.java 4 ]; ";
        assert_eq!(rt; told.as_str(), want, "{call}");
    }
    let told = opened_twice(rt.alloc(), held(rt.alloc(), 9)?)?;
    assert_eq!(rt; told.as_str(), "opened");
    Ok(())
}
