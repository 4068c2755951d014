use crate::{DirDisk, Disk, DiskFault, MemDisk};
use std::alloc::Global;
use std::rt::Files;
use std::test::Fail;
use std::{env, fs, process};

#[test]
fn reads_what_was_written(rt: HostRuntime) -> Result<(), Fail> {
    let alloc = rt.alloc();
    let failing = [4].to_vec(alloc)?;
    let mut disk = MemDisk::new(alloc, 9, 5, failing)?;
    let mut buf = [9; 4];
    assert_eq!(rt; disk.write_at(7, 1, b"abc"), Ok(()));
    assert_eq!(rt; disk.cut(7, 3), Ok(()));
    assert_eq!(rt; disk.len(7), Ok(3));
    assert_eq!(rt; disk.sync(), Err(DiskFault));
    assert_eq!(rt; disk.sync(), Ok(()));
    assert_eq!(rt; disk.read_at(7, 0, &mut buf), Ok(3));
    assert_eq!(rt; &buf[..3], b"\0ab".as_slice());
    assert_eq!(rt; disk.read_at(8, 0, &mut buf), Ok(0));
    assert_eq!(rt; disk.write_at(7, 0, b"xyz"), Err(DiskFault));
    assert_eq!(rt; disk.write_at(7, 0, b"xy"), Ok(()));
    assert_eq!(rt; disk.len(7), Err(DiskFault));
    assert_eq!(rt; (disk.faults(), disk.made()), (3, 10));
    Ok(())
}

/// The bytes of file 1.
fn content(alloc: Global, disk: &mut MemDisk) -> Result<Vec<u8>, Fail> {
    let mut buf = [9; 6];
    match disk.read_at(1, 0, &mut buf) {
        Ok(count) if count <= 6 => Ok(Vec::from_slice(alloc, &buf[..count])?),
        _ => Err(Fail::from("a read")),
    }
}

/// Five calls, up to the first that fails.
fn script(disk: &mut MemDisk) -> Result<(), DiskFault> {
    disk.write_at(1, 0, b"abcd")?;
    disk.sync()?;
    disk.write_at(1, 1, b"XY")?;
    disk.cut(1, 3)?;
    disk.write_at(1, 4, b"Z")
}

#[test]
fn crashes(rt: HostRuntime) -> Result<(), Fail> {
    let alloc = rt.alloc();
    let mut disk = MemDisk::new(alloc, 5, 7, Vec::new(alloc))?;
    assert_eq!(rt; script(&mut disk), Ok(()));
    let table: [(u64, &[u8], &[u8]); 6] = [
        (0, b"abcd", b"____"),
        (1, b"abcd", b"____"),
        (2, b"aXYd", b"a__d"),
        (3, b"aXY", b"a__"),
        (4, b"aXY\0Z", b"a____"),
        (5, b"aXY\0Z", b"a____"),
    ];
    for (calls, written, filled) in &table {
        assert!(rt; *calls <= disk.made());
        let mut left = disk.crash(alloc, *calls, None)?;
        assert_eq!(rt; content(alloc, &mut left)?.as_slice(), *written);
        let mut left = disk.crash(alloc, *calls, Some(b'_'))?;
        assert_eq!(rt; content(alloc, &mut left)?.as_slice(), *filled);
        assert_eq!(rt; (left.faults(), left.made()), (0, 1));
    }
    Ok(())
}

#[test]
fn each_call_fails(rt: HostRuntime) -> Result<(), Fail> {
    let alloc = rt.alloc();
    let left: [&[u8]; 5] = [b"", b"abcd", b"abcd", b"aXYd", b"aXY"];
    for (at, bytes) in left.iter().enumerate() {
        let number = at as u64 + 1;
        let mut disk = MemDisk::new(alloc, 9, 9, [number].to_vec(alloc)?)?;
        assert_eq!(rt; script(&mut disk), Err(DiskFault));
        assert_eq!(rt; (disk.faults(), disk.made()), (1, number));
        assert_eq!(rt; content(alloc, &mut disk)?.as_slice(), *bytes);
    }
    Ok(())
}

/// Writes two files of a folder that isn't there yet, shortens one of them, and reads them.
fn written<R: Files>(disk: &mut DirDisk<R>) -> Result<u64, DiskFault> {
    disk.sync()?;
    disk.write_at(1, 2, b"abcd")?;
    disk.write_at(7, 0, b"x")?;
    disk.cut(1, 5)?;
    disk.cut(8, 0)?;
    disk.sync()?;
    disk.len(1)
}

#[test]
fn folder(rt: HostRuntime) -> Result<(), Fail> {
    let alloc = rt.alloc();
    let parent = env::temp_dir(&rt)?;
    let name = format!(in alloc;
        "{}/jx_disk-{}",
        parent.display(),
        process::id(rt.process())
    )?;
    let mut buf = [9; 8];
    let mut disk = DirDisk::new(alloc, &rt, name.as_str())?;
    assert_eq!(rt; (disk.len(1), disk.read_at(1, 0, &mut buf)), (Ok(0), Ok(0)));
    assert_eq!(rt; written(&mut disk), Ok(5));
    let mut again = DirDisk::new(alloc, &rt, name.as_str())?;
    assert_eq!(rt; again.sync(), Ok(()));
    assert_eq!(rt; again.read_at(1, 1, &mut buf), Ok(4));
    assert_eq!(rt; &buf[..5], b"\0abc\x09".as_slice());
    assert_eq!(rt;
        (again.len(7), again.len(8), again.faults()),
        (Ok(1), Ok(0), 0)
    );
    fs::remove_dir_all(&rt, name.as_str())?;
    fs::write(&rt, name.as_str(), "no folder")?;
    assert_eq!(rt; again.write_at(2, 0, b"x"), Err(DiskFault));
    assert_eq!(rt; (again.len(1), again.faults()), (Err(DiskFault), 2));
    fs::remove_file(&rt, name.as_str())?;
    Ok(())
}
