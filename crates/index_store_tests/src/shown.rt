//! What the store and its files answer, as text.
use disk_index::{DiskPart, FileFault};
use index_store::{Found, SaveFault, Store};
use java_tree::{Text, is_container};
use jx_disk::Disk;
use std::alloc::{AllocError, Global};
use std::test::Fail;

/// The entries of a part, each with its stamp, in brackets.
fn entries(alloc: Global, part: &DiskPart) -> Result<String, AllocError> {
    let mut told = String::from_str(alloc, "[")?;
    for at in 0..part.entries() {
        let entry = format!(in alloc; "{} {} ", part.path(at), part.stamp(at))?;
        told.push_str(entry.as_str())?;
    }
    told.push(']')?;
    Ok(told)
}

/// The entries of a part, and its rows, each with its category, its key and its entry.
fn content(alloc: Global, part: &DiskPart) -> Result<String, AllocError> {
    let mut told = entries(alloc, part)?;
    for row in part.rows(alloc)?.as_slice() {
        let row = format!(in alloc; " {:?} {} {}", row.category, row.key.as_str(), row.entry)?;
        told.push_str(row.as_str())?;
    }
    Ok(told)
}

/// What bytes are as an index file.
pub(crate) fn file(alloc: Global, bytes: Vec<u8>) -> Result<String, AllocError> {
    match DiskPart::parse(alloc, bytes) {
        Ok(part) => content(alloc, &part),
        Err(FileFault::Old) => String::from_str(alloc, "old"),
        Err(FileFault::BadFile(at)) => format!(in alloc; "bad {at}"),
        Err(FileFault::NoMemory) => Err(AllocError),
    }
}

/// What is found of a container.
fn finding(alloc: Global, found: &Found) -> Result<String, AllocError> {
    match found {
        Found::Saved { generation, part } => {
            let entries = entries(alloc, part)?;
            format!(in alloc; "saved {generation} {entries}")
        }
        Found::Marked { generation } => format!(in alloc; "marked {generation}"),
        Found::Damaged { generation, at } => format!(in alloc; "damaged {generation} {at}"),
        Found::Old { generation } => format!(in alloc; "old {generation}"),
    }
}

/// What is found of each container.
pub(crate) fn findings(alloc: Global, found: &[(Text, Found)]) -> Result<String, AllocError> {
    let mut told = String::new(alloc);
    for (name, found) in found {
        let found = finding(alloc, found)?;
        let one = format!(in alloc; "{} {found}; ", name.as_str())?;
        told.push_str(one.as_str())?;
    }
    Ok(told)
}

/// What reopening a disk finds.
pub(crate) fn reopened<D: Disk + Drop>(alloc: Global, disk: D) -> Result<String, AllocError> {
    match Store::reopen(alloc, disk) {
        Ok((_, found)) => findings(alloc, &found),
        Err(fault) => format!(in alloc; "{}", fault.cause),
    }
}

/// What a save or a mark answers.
fn answer(alloc: Global, answer: Result<u64, SaveFault>) -> Result<String, AllocError> {
    match answer {
        Ok(generation) => format!(in alloc; "{generation}"),
        Err(SaveFault::TooLong(length)) => format!(in alloc; "too long {length}"),
        Err(SaveFault::Full(pairs)) => format!(in alloc; "full {pairs}"),
        Err(SaveFault::Worn) => String::from_str(alloc, "worn"),
        Err(SaveFault::Disk) => String::from_str(alloc, "disk"),
        Err(SaveFault::NoMemory) => Err(AllocError),
    }
}

/// What the save of an image answers.
pub(crate) fn saved<D: Disk>(
    alloc: Global,
    store: &mut Store<D>,
    name: &str,
    image: &[u8],
) -> Result<String, AllocError> {
    if !is_container(name) {
        return String::from_str(alloc, "no container");
    }
    answer(alloc, store.save(alloc, name, image))
}

/// What the mark of a container answers.
pub(crate) fn marked<D: Disk>(
    alloc: Global,
    store: &mut Store<D>,
    name: &str,
) -> Result<String, AllocError> {
    if !is_container(name) {
        return String::from_str(alloc, "no container");
    }
    answer(alloc, store.mark_rebuild(alloc, name))
}

/// The store of a disk, opened.
pub(crate) fn store<D: Disk + Drop>(alloc: Global, disk: D) -> Result<Store<D>, Fail> {
    match Store::reopen(alloc, disk) {
        Ok((store, _)) => Ok(store),
        Err(_) => Err(Fail::from("reopening")),
    }
}
