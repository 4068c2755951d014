//! The limits of a store: its pairs, its generations and the length of an image.
use crate::disks::{STATE, cell, image, put, with_cells, with_files, zeros};
use crate::shown::{marked, reopened, saved, store};
use jx_disk::MemDisk;
use std::alloc::{AllocError, Global};
use std::test::Fail;

/// The last generation.
const LAST: u64 = 4_611_686_018_427_387_904;

/// The most bytes of an image.
const LONGEST: usize = 67_108_864;

/// A disk with so many containers, each marked once, of the names `c0` on.
fn of_many(alloc: Global, count: usize) -> Result<MemDisk, Fail> {
    let mut state = zeros(alloc, STATE)?;
    for number in 0..count {
        let name = format!(in alloc; "c{number}")?;
        put(
            &mut state,
            number.saturating_mul(512),
            &cell(2, 1, 0, &name),
        );
    }
    with_files(alloc, &[(0, &[1]), (1, &state)])
}

/// All pairs are held by 256 containers, and by 255 and one more.
#[test]
fn full(rt: HostRuntime) -> Result<(), Fail> {
    let alloc = rt.alloc();
    let mut held = store(alloc, of_many(alloc, 256)?)?;
    assert_eq!(rt;
        saved(alloc, &mut held, "new", &image(1))?.as_str(),
        "full 256"
    );
    assert_eq!(rt; marked(alloc, &mut held, "new")?.as_str(), "full 256");
    assert_eq!(rt; saved(alloc, &mut held, "c255", &image(1))?.as_str(), "2");
    assert_eq!(rt; held.into_disk().faults(), 0);
    let mut held = store(alloc, of_many(alloc, 255)?)?;
    assert_eq!(rt; marked(alloc, &mut held, "new")?.as_str(), "1");
    assert_eq!(rt;
        saved(alloc, &mut held, "newer", &image(1))?.as_str(),
        "full 256"
    );
    assert_eq!(rt; saved(alloc, &mut held, "new", &image(1))?.as_str(), "2");
    Ok(())
}

/// What the marks of so many containers of an empty disk answer, and then that of one more.
fn marks(alloc: Global, count: usize) -> Result<String, Fail> {
    let disk = MemDisk::new(alloc, 4_000, 400_000, Vec::new(alloc))?;
    let mut store = store(alloc, disk)?;
    for number in 0..count {
        let name = format!(in alloc; "c{number}")?;
        if marked(alloc, &mut store, &name)?.as_str() != "1" {
            return Err(Fail::from("a mark"));
        }
    }
    Ok(marked(alloc, &mut store, "new")?)
}

#[test]
fn one_more(rt: HostRuntime) -> Result<(), Fail> {
    assert_eq!(rt; marks(rt.alloc(), 255)?.as_str(), "1");
    assert_eq!(rt; marks(rt.alloc(), 256)?.as_str(), "full 256");
    Ok(())
}

/// Pairs that are passed over are held.
#[test]
fn full_of_one(rt: HostRuntime) -> Result<(), Fail> {
    let alloc = rt.alloc();
    let mut state = zeros(alloc, STATE)?;
    for number in 0..256usize {
        put(&mut state, number.saturating_mul(512), &cell(2, 1, 0, "a"));
    }
    let disk = with_files(alloc, &[(0, &[1]), (1, &state)])?;
    let mut held = store(alloc, disk)?;
    assert_eq!(rt;
        saved(alloc, &mut held, "b", &image(1))?.as_str(),
        "full 256"
    );
    assert_eq!(rt; saved(alloc, &mut held, "a", &image(1))?.as_str(), "2");
    Ok(())
}

/// A disk with an image of `src` at a generation.
fn aged(alloc: Global, generation: u64) -> Result<MemDisk, Fail> {
    with_cells(alloc, &[cell(1, generation, 53, "src")], &image(1))
}

#[test]
fn worn(rt: HostRuntime) -> Result<(), Fail> {
    let alloc = rt.alloc();
    let found = reopened(alloc, aged(alloc, LAST)?)?;
    assert_eq!(rt;
        found.as_str(),
        "src saved 4611686018427387904 [A.java 1 ]; "
    );
    let mut old = store(alloc, aged(alloc, LAST)?)?;
    assert_eq!(rt; saved(alloc, &mut old, "src", &image(2))?.as_str(), "worn");
    assert_eq!(rt; marked(alloc, &mut old, "src")?.as_str(), "worn");
    assert_eq!(rt; saved(alloc, &mut old, "lib", &image(2))?.as_str(), "1");
    let mut old = store(alloc, aged(alloc, LAST - 1)?)?;
    assert_eq!(rt;
        saved(alloc, &mut old, "src", &image(2))?.as_str(),
        "4611686018427387904"
    );
    assert_eq!(rt; marked(alloc, &mut old, "src")?.as_str(), "worn");
    let found = reopened(alloc, old.into_disk())?;
    assert_eq!(rt;
        found.as_str(),
        "src saved 4611686018427387904 [A.java 2 ]; "
    );
    Ok(())
}

/// How many zeros are copied at once.
const PIECE: usize = 1_048_576;

/// So many zeros, of which only a piece is made one by one.
fn many(alloc: Global, length: usize) -> Result<Vec<u8>, AllocError> {
    let piece = zeros(alloc, PIECE)?;
    let mut image = Vec::with_capacity(alloc, length)?;
    for _ in 0..length / PIECE {
        image.extend_from_slice(&piece)?;
    }
    let (rest, _) = piece.split_at((length % PIECE).min(piece.len()));
    image.extend_from_slice(rest)?;
    Ok(image)
}

/// What the save of an image of so many zeros answers, on a disk that has room for it or for less.
fn long(alloc: Global, length: usize, room: usize) -> Result<String, Fail> {
    let mut store = store(alloc, MemDisk::new(alloc, 40, room, Vec::new(alloc))?)?;
    let image = many(alloc, length)?;
    Ok(saved(alloc, &mut store, "src", &image)?)
}

#[test]
fn lengths(rt: HostRuntime) -> Result<(), Fail> {
    let told = long(rt.alloc(), LONGEST, LONGEST + 200_000)?;
    assert_eq!(rt; told.as_str(), "1");
    let told = long(rt.alloc(), LONGEST + 1, 200_000)?;
    assert_eq!(rt; told.as_str(), "too long 67108865");
    Ok(())
}

/// An image that is too long is told so where the pairs are held too, and where the container is worn.
#[test]
fn too_long_first(rt: HostRuntime) -> Result<(), Fail> {
    let alloc = rt.alloc();
    let long = many(alloc, LONGEST + 1)?;
    let mut held = store(alloc, of_many(alloc, 256)?)?;
    assert_eq!(rt;
        saved(alloc, &mut held, "new", &long)?.as_str(),
        "too long 67108865"
    );
    let mut old = store(alloc, aged(alloc, LAST)?)?;
    assert_eq!(rt;
        saved(alloc, &mut old, "src", &long)?.as_str(),
        "too long 67108865"
    );
    Ok(())
}
