//! Reads the state file: which cells count, and which of a pair is its newest.
ghost use Rattle.std.specs.Prelude.{◌≡◌, ◌==◌, ◌&&◌, ◌||◌, ◌<◌, ◌+◌, true, nat_lt, nat_le, if◌then◌else◌};
ghost use Rattle.std.specs.Prelude.{length, drop, slice_index, IfOk};
ghost use Rattle.std.specs.List.{list_all};
ghost use Rattle.std.specs.Str.{is_utf8};
ghost use Rattle.byteorder.specs.Endian.{big_number};
ghost use Rattle.java_tree.specs.Names.{is_container};
ghost use Rattle.java_model.specs.StateFile.Cells.{cell_in, is_sound, is_whole, counting, greatest_generation, longest_image};
ghost use Rattle.java_model.specs.StateFile.Cells.{cell_bytes, newest, newest_in, state_length};
ghost use Rattle.index_states.specs.Cells.{says_of};
ghost use Rattle.index_states.specs.Loaded.{IsSide, IsNewest, AreNewest, AreNone};

use crate::cell::Cell;
use crate::layout::{
    CELL, GENERATION, IMAGE, LAST_GENERATION, LENGTH, LONGEST_IMAGE, NAME, NAME_LENGTH, OPEN,
    PAIRS, REBUILD,
};
use byteorder::{BigEndian, ByteOrder};
use java_tree::{Text, is_container};
use std::alloc::{AllocError, Global};

#[tactic(auto, unfolding(java_model::specs::StateFile::Cells::cell_in))]
fn is_rebuild(cell: &[u8]) -> bool
    requires { length cell.now ≡ 256 }
    ensures { result ≡ (cell_in cell.now).rebuild }
{
    cell[1] == REBUILD
}

#[tactic(auto, unfolding(java_model::specs::StateFile::Cells::cell_in))]
fn generation_in(cell: &[u8]) -> u64
    requires { length cell.now ≡ 256 }
    ensures { result ≡ (cell_in cell.now).generation }
{
    BigEndian::read_u64(&cell[GENERATION..])
}

#[tactic(auto, unfolding(java_model::specs::StateFile::Cells::cell_in))]
fn length_in(cell: &[u8]) -> u64
    requires { length cell.now ≡ 256 }
    ensures { result ≡ (cell_in cell.now).size }
{
    BigEndian::read_u64(&cell[LENGTH..])
}

/// The name of a cell, and what stands after it.
#[tactic(auto, unfolding(java_model::specs::StateFile::Cells::cell_in))]
fn name_in(cell: &[u8]) -> (&[u8], &[u8])
    requires { length cell.now ≡ 256 }
    ensures name { result.0.now ≡ (cell_in cell.now).name }
    ensures rest { result.1.now ≡ drop (19 + slice_index cell.now 18) cell.now }
{
    let rest = &cell[NAME..];
    rest.split_at(rest.len().min(cell[NAME_LENGTH] as usize))
}

/// Whether bytes are the name of a container.
fn is_name(name: &[u8]) -> bool
    ensures { result ≡ (is_utf8 name.now && is_container name.now) }
{
    match str::from_utf8(name) {
        Ok(text) => is_container(text),
        Err(_) => false,
    }
}

fn is_generation(generation: u64) -> bool
    ensures { result ≡ (nat_le 1 generation && nat_le generation greatest_generation) }
{
    (1..=LAST_GENERATION).contains(&generation)
}

/// Whether an image may have this length: a container that is to be indexed anew has none.
fn is_size(rebuild: bool, size: u64) -> bool
    ensures { result ≡ (if rebuild then size == 0 else nat_le size longest_image) }
{
    if rebuild {
        size == 0
    } else {
        size <= LONGEST_IMAGE
    }
}

fn is_sound(cell: &[u8]) -> bool
    requires { length cell.now ≡ 256 }
    ensures { result ≡ is_sound (cell_in cell.now) }
{
    is_generation(generation_in(cell))
        && is_size(is_rebuild(cell), length_in(cell))
        && is_name(name_in(cell).0)
}

fn is_kind(kind: u8) -> bool
    ensures { result ≡ (kind == 1 || kind == 2) }
{
    kind == IMAGE || kind == REBUILD
}

fn is_blank(bytes: &[u8]) -> bool
    ensures { result ≡ list_all (λ b. b == 0) bytes.now }
{
    bytes.iter().all(|b| *b == 0)
}

#[tactic(auto, unfolding(java_model::specs::StateFile::Cells::is_whole))]
fn is_whole(cell: &[u8]) -> bool
    requires { length cell.now ≡ 256 }
    ensures { result ≡ is_whole cell.now }
{
    is_kind(cell[1]) && is_sound(cell) && is_blank(name_in(cell).1)
}

/// Whether a cell counts.
fn counts(cell: &[u8]) -> bool
    requires { length cell.now ≡ 256 }
    ensures { result ≡ (slice_index cell.now 0 == 1 && is_whole cell.now) }
{
    cell[0] == OPEN && is_whole(cell)
}

/// The side of the greater generation, the first on a tie.
fn later_side(first: &[u8], second: &[u8]) -> u8
    requires first { length first.now ≡ 256 }
    requires second { length second.now ≡ 256 }
    ensures { result ≡ (if nat_lt (cell_in first.now).generation (cell_in second.now).generation then 1 else 0) }
{
    if generation_in(first) < generation_in(second) {
        1
    } else {
        0
    }
}

/// The side of the newest of the cells that count: that of the greater generation, the first on a tie.
fn newest_side(first: &[u8], second: &[u8]) -> Option<u8>
    requires first { length first.now ≡ 256 }
    requires second { length second.now ≡ 256 }
    ensures { IsSide first.now second.now result (newest (counting first.now) (counting second.now)) }
{
    match (counts(first), counts(second)) {
        (true, true) => Some(later_side(first, second)),
        (true, false) => Some(0),
        (false, true) => Some(1),
        (false, false) => None,
    }
}

/// The text of bytes that are UTF-8.
fn text_of(bytes: &[u8]) -> &str
    requires { is_utf8 bytes.now ≡ true }
    ensures { result.now ≡ bytes.now }
{
    match str::from_utf8(bytes) {
        Ok(text) => text,
        Err(_) => "",
    }
}

/// What a cell says.
fn read_cell(alloc: Global, pair: u8, side: u8, cell: &[u8]) -> Result<Cell, AllocError>
    requires long { length cell.now ≡ 256 }
    requires text { is_utf8 (cell_in cell.now).name ≡ true }
    ensures says { IfOk result (λ read. says_of read ≡ cell_in cell.now) }
    ensures place { IfOk result (λ read. (read.pair ≡ pair) × (read.side ≡ side)) }
{
    let name = Text::from_str(alloc, text_of(name_in(cell).0))?;
    Ok(Cell {
        pair,
        side,
        rebuild: is_rebuild(cell),
        generation: generation_in(cell),
        length: length_in(cell),
        name,
    })
}

/// The bytes of a cell of the state file.
fn cell_bytes(state: &[u8], pair: u8, side: u8) -> &[u8]
    requires long { length state.now ≡ state_length }
    requires side { side < 2 }
    ensures value { result.now ≡ cell_bytes pair side state.now }
    ensures long { length result.now ≡ 256 }
{
    let at = 2 * CELL * pair as usize + CELL * side as usize;
    &state[at..at + CELL]
}

/// The newest counting cell of a pair.
fn newest_cell(alloc: Global, state: &[u8], pair: u8) -> Result<Option<Cell>, AllocError>
    requires { length state.now ≡ state_length }
    ensures { IfOk result (λ cell. IsNewest pair cell (newest_in state.now pair)) }
{
    let first = cell_bytes(state, pair, 0);
    let second = cell_bytes(state, pair, 1);
    match newest_side(first, second) {
        Some(0) => Ok(Some(read_cell(alloc, pair, 0, first)?)),
        Some(_) => Ok(Some(read_cell(alloc, pair, 1, second)?)),
        None => Ok(None),
    }
}

/// For each pair its newest counting cell.
pub(crate) fn newest_cells(alloc: Global, state: &[u8]) -> Result<Vec<Option<Cell>>, AllocError>
    requires { length state.now ≡ state_length }
    ensures { IfOk result (λ cells. AreNewest state.now cells.items) }
{
    let mut cells = Vec::with_capacity(alloc, PAIRS)?;
    for pair in 0..PAIRS {
        cells.push(newest_cell(alloc, state, pair as u8)?)?;
    }
    Ok(cells)
}

/// For each pair no cell.
pub(crate) fn no_cells(alloc: Global) -> Result<Vec<Option<Cell>>, AllocError>
    ensures { IfOk result (λ cells. AreNone cells.items) }
{
    let mut cells = Vec::with_capacity(alloc, PAIRS)?;
    for _ in 0..PAIRS {
        cells.push(None)?;
    }
    Ok(cells)
}
