//! A store over a folder of the host.
use crate::disks::{STATE, image, zeros};
use crate::shown::{marked, reopened, saved, store};
use jx_disk::{DirDisk, Disk};
use std::alloc::Global;
use std::test::Fail;
use std::{env, fs, process};

/// The path of a file or a folder that this test alone uses.
fn path(rt: &HostRuntime, name: &str) -> Result<String, Fail> {
    let parent = env::temp_dir(rt)?;
    let id = process::id(rt.process());
    Ok(format!(in rt.alloc(); "{}/index_store-{name}-{id}", parent.display())?)
}

/// What is found in a folder.
fn found(rt: &HostRuntime, folder: &str) -> Result<String, Fail> {
    let disk = DirDisk::new(rt.alloc(), rt, folder)?;
    Ok(reopened(rt.alloc(), disk)?)
}

/// What the save of an image says in a folder.
fn saved_in(rt: &HostRuntime, folder: &str, name: &str, stamp: u8) -> Result<String, Fail> {
    let mut store = store(rt.alloc(), DirDisk::new(rt.alloc(), rt, folder)?)?;
    Ok(saved(rt.alloc(), &mut store, name, &image(stamp))?)
}

/// What the mark of a container says in a folder.
fn marked_in(rt: &HostRuntime, folder: &str, name: &str) -> Result<String, Fail> {
    let mut store = store(rt.alloc(), DirDisk::new(rt.alloc(), rt, folder)?)?;
    Ok(marked(rt.alloc(), &mut store, name)?)
}

#[test]
fn saved_and_opened(rt: HostRuntime) -> Result<(), Fail> {
    let folder = path(&rt, "saved")?;
    assert_eq!(rt; found(&rt, &folder)?.as_str(), "");
    assert_eq!(rt; saved_in(&rt, &folder, "src", 1)?.as_str(), "1");
    assert_eq!(rt; saved_in(&rt, &folder, "src", 2)?.as_str(), "2");
    assert_eq!(rt; saved_in(&rt, &folder, "src", 3)?.as_str(), "3");
    assert_eq!(rt; marked_in(&rt, &folder, "lib")?.as_str(), "1");
    assert_eq!(rt;
        found(&rt, &folder)?.as_str(),
        "src saved 3 [A.java 3 ]; lib marked 1; "
    );
    fs::remove_dir_all(&rt, folder.as_str())?;
    Ok(())
}

/// Puts bytes in place of a file of a folder.
fn replace(rt: &HostRuntime, folder: &str, file: u32, bytes: &[u8]) -> Result<(), Fail> {
    let path = format!(in rt.alloc(); "{folder}/{file}")?;
    fs::write(rt, path.as_str(), bytes)?;
    Ok(())
}

/// The first 40 bytes of an image.
const CUT: [u8; 40] =
    *b"JXF2\0\0\0\x01\0\x06A.java\0\0\0\0\0\0\0\x01\0\0\0\x01\0\0\0\x20\0\0\0\0\0\0\0\x05";

/// An image, the state file and the ready file are cut.
#[test]
fn cut(rt: HostRuntime) -> Result<(), Fail> {
    let folder = path(&rt, "cut")?;
    assert_eq!(rt; saved_in(&rt, &folder, "src", 1)?.as_str(), "1");
    replace(&rt, &folder, 2, &CUT)?;
    assert_eq!(rt; found(&rt, &folder)?.as_str(), "src damaged 1 40; ");
    assert_eq!(rt; saved_in(&rt, &folder, "src", 2)?.as_str(), "2");
    assert_eq!(rt; found(&rt, &folder)?.as_str(), "src saved 2 [A.java 2 ]; ");
    replace(&rt, &folder, 0, b"")?;
    assert_eq!(rt; found(&rt, &folder)?.as_str(), "");
    assert_eq!(rt; saved_in(&rt, &folder, "src", 3)?.as_str(), "1");
    replace(&rt, &folder, 1, &zeros(rt.alloc(), STATE - 1)?)?;
    assert_eq!(rt; found(&rt, &folder)?.as_str(), "");
    assert_eq!(rt; saved_in(&rt, &folder, "src", 4)?.as_str(), "1");
    fs::remove_dir_all(&rt, folder.as_str())?;
    Ok(())
}

/// A file in place of the folder, and a folder that can't be made.
#[test]
fn no_folder(rt: HostRuntime) -> Result<(), Fail> {
    let file = path(&rt, "file")?;
    fs::write(&rt, file.as_str(), "no folder")?;
    assert_eq!(rt; found(&rt, &file)?.as_str(), "the disk failed");
    let inside = format!(in rt.alloc(); "{file}-is-not-there/store")?;
    assert_eq!(rt; found(&rt, &inside)?.as_str(), "the disk failed");
    fs::remove_file(&rt, file.as_str())?;
    Ok(())
}

/// A folder that is gone while its store is open: the save fails, and the next one makes a folder anew.
#[test]
fn folder_is_lost(rt: HostRuntime) -> Result<(), Fail> {
    let folder = path(&rt, "lost")?;
    let alloc = rt.alloc();
    let mut open = store(alloc, DirDisk::new(alloc, &rt, folder.as_str())?)?;
    assert_eq!(rt; saved(alloc, &mut open, "src", &image(1))?.as_str(), "1");
    fs::remove_dir_all(&rt, folder.as_str())?;
    fs::write(&rt, folder.as_str(), "no folder")?;
    assert_eq!(rt; saved(alloc, &mut open, "src", &image(2))?.as_str(), "disk");
    assert!(rt; open.into_disk().faults() > 0);
    fs::remove_file(&rt, folder.as_str())?;
    Ok(())
}
