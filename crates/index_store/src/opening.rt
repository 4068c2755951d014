//! Opens the files of a store: its table of acknowledged cells, and what is found of each container.
ghost use Rattle.std.specs.Prelude.{◌≡◌, ◌+◌, ◌<◌, ℕ, length, get_or, None, true, false, IsTrue, IfOk, OnOk, IsErrOf};
ghost use Rattle.jx_disk.specs.Disk.{LeavesOnly, Only};
ghost use Rattle.index_states.specs.Reads.{ReadsOnly, CountsState};
ghost use Rattle.index_store.specs.Opened.{AreTold, RecoversAs, MayOpen, LeavesFrom, Finds, FindsBelow, IsFound, kept_by, OpensAs};
ghost use Rattle.index_store.specs.Table.{IsNamed};

use crate::found::Found;
use crate::table::{Table, find_held};
use disk_index::{DiskPart, FileFault};
use index_states::{Cell, StateFault, load, make_ready, read_slot};
use java_tree::Text;
use jx_disk::Disk;
use std::alloc::{AllocError, Global};

/// The table of a store, which is made ready where it isn't, on a disk that was synced.
fn open_table<D: Disk>(alloc: Global, disk: &mut D) -> Result<Table, StateFault>
    ensures told { IsTrue (D.is_honest disk.old) → IfOk result (λ table. AreTold (D.seen disk.new) table.entries.items) }
    ensures recovers { IsTrue (D.is_honest disk.old) → OnOk result (RecoversAs (D.seen disk.old) (D.seen disk.new)) }
    ensures stable { IsTrue (D.is_honest disk.old) → Only (D.seen disk.old) (D.may_leave disk.old)
        → OnOk result (Only (D.seen disk.new) (D.may_leave disk.new)) }
    ensures any_moment { IsTrue (D.is_honest disk.old) → Only (D.seen disk.old) (D.may_leave disk.old)
        → LeavesOnly D.moment D.left_since disk.old disk.new (RecoversAs (D.seen disk.old)) }
    ensures count { CountsState result (D.faults disk.old) (D.faults disk.new) }
    ensures honest { D.is_honest disk.new ≡ D.is_honest disk.old }
{
    let states = load(disk, alloc)?;
    if states.ready {
        return Ok(Table {
            entries: states.cells,
        });
    }
    make_ready(disk, alloc)?;
    Ok(Table {
        entries: states.cells,
    })
}

/// What an image is found to be, which has the length that its cell says.
fn found_in(alloc: Global, generation: u64, image: Vec<u8>) -> Result<Found, StateFault>
    ensures found { IfOk result (IsFound (record { rebuild = false; generation = generation; size = length image.items; image = image.items })) }
    ensures own { ¬ IsErrOf result StateFault.Disk }
{
    match DiskPart::parse(alloc, image) {
        Ok(part) => Ok(Found::Saved { generation, part }),
        Err(FileFault::Old) => Ok(Found::Old { generation }),
        Err(FileFault::BadFile(at)) => Ok(Found::Damaged { generation, at }),
        Err(FileFault::NoMemory) => Err(StateFault::NoMemory),
    }
}

/// What is found of a cell's container.
fn find<D: Disk>(alloc: Global, disk: &mut D, cell: &Cell) -> Result<Found, StateFault>
    ensures found { IsTrue (D.is_honest disk.old) → IfOk result (IsFound (kept_by (D.seen disk.old) cell.now)) }
    ensures reads { ReadsOnly D.seen D.may_leave D.moment D.left_since D.is_honest disk.old disk.new }
    ensures count { CountsState result (D.faults disk.old) (D.faults disk.new) }
{
    let generation = cell.generation;
    if cell.rebuild {
        return Ok(Found::Marked { generation });
    }
    let mut image = zeros(alloc, cell.length as usize)?;
    let read = read_slot(disk, cell.pair, cell.side, &mut image)?;
    if read < image.len() {
        let at = read as u64;
        return Ok(Found::Damaged { generation, at });
    }
    found_in(alloc, generation, image)
}

/// So many zeros.
fn zeros(alloc: Global, count: usize) -> Result<Vec<u8>, AllocError>
    ensures { IfOk result (λ bytes. length bytes.items ≡ count) }
{
    Vec::from_elem(alloc, 0, count)
}

/// Whether a pair is the first that its container holds.
fn is_first(table: &[Option<Cell>], pair: u8, name: &str) -> bool
    requires long { length table.now ≡ 256 }
    requires named { IsNamed (get_or table.now pair None) name.now }
    ensures first { result ≡ true → (before : ℕ) → before < pair → ¬ IsNamed (get_or table.now before None) name.now }
    ensures later { result ≡ false → (before : ℕ) × (before < pair) × IsNamed (get_or table.now before None) name.now }
{
    match find_held(table, name) {
        Some(first) => first == pair,
        None => true,
    }
}

/// Adds what is found of a pair's container, unless an earlier pair has it.
fn add_found<D: Disk>(
    alloc: Global,
    disk: &mut D,
    table: &[Option<Cell>],
    pair: u8,
    found: &mut Vec<(Text, Found)>,
) -> Result<(), StateFault>
    requires { length table.now ≡ 256 }
    ensures found { IsTrue (D.is_honest disk.old) → FindsBelow (D.seen disk.old) table.now pair found.old.items
        → OnOk result (FindsBelow (D.seen disk.old) table.now (pair + 1) found.new.items) }
    ensures reads { ReadsOnly D.seen D.may_leave D.moment D.left_since D.is_honest disk.old disk.new }
    ensures count { CountsState result (D.faults disk.old) (D.faults disk.new) }
{
    if let Some(cell) = &table[pair as usize] {
        if is_first(table, pair, cell.name.as_str()) {
            let name = cell.name.copy(alloc)?;
            found.push((name, find(alloc, disk, cell)?))?;
        }
    }
    Ok(())
}

/// What is found of each container of a table.
fn find_all<D: Disk>(
    alloc: Global,
    disk: &mut D,
    table: &[Option<Cell>],
) -> Result<Vec<(Text, Found)>, StateFault>
    requires { length table.now ≡ 256 }
    ensures found { IsTrue (D.is_honest disk.old) → IfOk result (λ found. FindsBelow (D.seen disk.old) table.now 256 found.items) }
    ensures reads { ReadsOnly D.seen D.may_leave D.moment D.left_since D.is_honest disk.old disk.new }
    ensures count { CountsState result (D.faults disk.old) (D.faults disk.new) }
{
    let mut found = Vec::with_capacity(alloc, table.len())?;
    for pair in 0..table.len() {
        add_found(alloc, disk, table, pair as u8, &mut found)?;
    }
    Ok(found)
}

/// Opens a store on a disk that was synced: its table, and what is found of each container.
pub(crate) fn open_synced<D: Disk>(
    alloc: Global,
    disk: &mut D,
) -> Result<(Table, Vec<(Text, Found)>), StateFault>
    ensures opened { IsTrue (D.is_honest disk.old) → Only (D.seen disk.old) (D.may_leave disk.old)
        → IfOk result (λ opened. OpensAs D.may_leave (D.seen disk.old) opened.0.entries.items disk.new) }
    ensures found { IsTrue (D.is_honest disk.old) → IfOk result (λ opened. Finds (D.seen disk.old) opened.1.items) }
    ensures any_moment { IsTrue (D.is_honest disk.old) → Only (D.seen disk.old) (D.may_leave disk.old)
        → LeavesOnly D.moment D.left_since disk.old disk.new (RecoversAs (D.seen disk.old)) }
    ensures count { CountsState result (D.faults disk.old) (D.faults disk.new) }
    ensures honest { D.is_honest disk.new ≡ D.is_honest disk.old }
{
    let table = open_table(alloc, disk)?;
    let found = find_all(alloc, disk, &table.entries)?;
    Ok((table, found))
}

/// Opens a store, after a sync of its disk.
pub(crate) fn open<D: Disk>(
    alloc: Global,
    disk: &mut D,
) -> Result<(Table, Vec<(Text, Found)>), StateFault>
    ensures opened { IsTrue (D.is_honest disk.old) → IfOk result (λ opened. OpensAs D.may_leave (D.seen disk.old) opened.0.entries.items disk.new) }
    ensures found { IsTrue (D.is_honest disk.old) → IfOk result (λ opened. Finds (D.seen disk.old) opened.1.items) }
    ensures any_moment { IsTrue (D.is_honest disk.old)
        → LeavesOnly D.moment D.left_since disk.old disk.new (MayOpen (D.may_leave disk.old) (D.seen disk.old)) }
    ensures since_sync { IsTrue (D.is_honest disk.old)
        → OnOk result (LeavesFrom D.moment D.left_since disk.old disk.new (RecoversAs (D.seen disk.old))) }
    ensures count { CountsState result (D.faults disk.old) (D.faults disk.new) }
    ensures honest { D.is_honest disk.new ≡ D.is_honest disk.old }
{
    disk.sync()?;
    open_synced(alloc, disk)
}
