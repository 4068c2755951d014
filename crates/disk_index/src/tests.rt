ghost use Rattle.std.specs.Prelude.{◌≡◌, ◌∷◌, [], codes, IfOk};

use super::*;
use index_keys::{Admit, category_byte};
use java_tree::{Category, IndexEntry, Row, Text};
use sqlite_items::Items;
use std::test::Fail;

/// The file of the document `A.java`, whose type is named `A`.
const FILE: [u8; 53] = [
    0x4a, 0x58, 0x46, 0x32, 0, 0, 0, 1, 0, 6, 0x41, 0x2e, 0x6a, 0x61, 0x76, 0x61, 0, 0, 0, 0, 0, 0,
    0, 1, 0, 0, 0, 1, 0, 0, 0, 0x20, 0, 0, 0, 0, 0, 0, 0, 5, 2, 0x41, 0x2f, 0x2f, 0x63, 0, 0, 0, 1,
    0, 0, 0, 0,
];

struct Types;

impl Admit for Types {
    ghost use Rattle.std.specs.Prelude.{None, ◌==◌};
    ghost use Rattle.java_tree.specs.Keys.{category_byte};

    ghost admitted = { λ _ category _. category_byte category == 2 };

    ghost name = { λ _. None };

    fn admits(&self, category: Category, _text: &str) -> bool {
        category_byte(category) == 2
    }

    fn exact(&self) -> Option<&str> {
        None
    }
}

fn file(rt: &HostRuntime, bytes: &[u8]) -> Result<Vec<u8>, Fail> {
    Ok(Vec::from_slice(rt.alloc(), bytes)?)
}

#[test]
fn faults(rt: HostRuntime) -> Result<(), Fail> {
    let table: [(usize, u8, u64); 9] = [
        (3, 0x39, 0),
        (15, b'!', 10),
        (16, 0x40, 16),
        (31, 33, 28),
        (35, 1, 32),
        (40, 0, 40),
        (42, b'-', 40),
        (48, 0, 45),
        (52, 1, 49),
    ];
    for (at, byte, place) in &table {
        let mut bytes = file(&rt, &FILE)?;
        assert!(rt; *at < bytes.len());
        bytes[*at] = *byte;
        assert_eq!(rt;
            DiskPart::parse(rt.alloc(), bytes).err(),
            Some(FileFault::BadFile(*place))
        );
    }
    Ok(())
}

#[test]
fn ends(rt: HostRuntime) -> Result<(), Fail> {
    let short = file(&rt, &FILE[..52])?;
    assert_eq!(rt;
        DiskPart::parse(rt.alloc(), short).err(),
        Some(FileFault::BadFile(52))
    );
    let mut long = file(&rt, &FILE)?;
    long.push(0)?;
    assert_eq!(rt;
        DiskPart::parse(rt.alloc(), long).err(),
        Some(FileFault::BadFile(53))
    );
    let old = file(&rt, b"JXF1")?;
    assert_eq!(rt;
        DiskPart::parse(rt.alloc(), old).err(),
        Some(FileFault::Old)
    );
    Ok(())
}

#[test]
fn one_document(rt: HostRuntime) -> Result<(), Fail> {
    let Ok(part) = DiskPart::parse(rt.alloc(), file(&rt, &FILE)?) else {
        return Err(Fail::from("a file"));
    };
    assert_eq!(rt; part.entries(), 1);
    assert_eq!(rt; part.path(0), "A.java");
    assert_eq!(rt; part.stamp(0), 1);
    assert!(rt; part.is_live(0));
    assert_eq!(rt; part.query(rt.alloc(), &Types)?.as_slice(), [0].as_slice());
    let rows = part.rows(rt.alloc())?;
    assert_eq!(rt; rows.len(), 1);
    for row in rows.as_slice() {
        assert_eq!(rt; row.category, Category::TypeDecl);
        assert_eq!(rt; row.key.as_str(), "A//c");
        assert_eq!(rt; row.entry, 0);
    }
    Ok(())
}

fn one_entry(rt: &HostRuntime) -> Result<Items<IndexEntry>, Fail>
    ensures { IfOk result (λ entries. entries ≡ record { path = codes "A.java"; stamp = 1 } ∷ []) }
{
    let mut entries = Items::new(rt.alloc());
    entries.push(IndexEntry {
        path: Text::from_str(rt.alloc(), "A.java")?,
        stamp: 1,
    })?;
    Ok(entries)
}

fn one_row(rt: &HostRuntime) -> Result<Items<Row>, Fail>
    ensures { IfOk result (λ rows. rows ≡ record { category = Category.TypeDecl; key = codes "A//c"; entry = 0 } ∷ []) }
{
    let mut rows = Items::new(rt.alloc());
    rows.push(Row {
        category: Category::TypeDecl,
        key: Text::from_str(rt.alloc(), "A//c")?,
        entry: 0,
    })?;
    Ok(rows)
}

#[test]
fn written(rt: HostRuntime) -> Result<(), Fail> {
    let entries = one_entry(&rt)?;
    let rows = one_row(&rt)?;
    match encode(rt.alloc(), entries.as_slice(), rows.as_slice()) {
        Ok(bytes) => assert_eq!(rt; bytes.as_slice(), FILE.as_slice()),
        Err(_) => return Err(Fail::from("a file")),
    }
    Ok(())
}
