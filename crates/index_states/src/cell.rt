//! A cell of the state file: what it says, and its bytes.
ghost use Rattle.std.specs.Prelude.{◌≡◌, ◌+◌, ◌≤◌, ◌∷◌, ◌++◌, if◌then◌else◌, length, drop, IsTrue, Some};
ghost use Rattle.byteorder.specs.Endian.{big_bytes};
ghost use Rattle.java_model.specs.StateFile.Cells.{Cell as Says, spelled, is_sound, counting};

use crate::layout::{CELL_BYTES, IMAGE, REBUILD};
use byteorder::{BigEndian, ByteOrder};
use java_tree::Text;

/// A counting cell of a pair: its container is to be indexed anew, or has an image of so many bytes.
#[derive(Debug, Drop)]
pub struct Cell {
    pub pair: u8,
    pub side: u8,
    pub rebuild: bool,
    pub generation: u64,
    pub length: u64,
    pub name: Text,
}

/// How many bytes a number has.
const NUMBER: usize = 8;

/// The bytes after the gate of a cell that says that a container has an image of so many bytes, or is to be indexed anew.
pub fn spell_cell(rebuild: bool, generation: u64, size: u64, name: &str) -> [u8; 255]
    requires { length name.now ≤ 200 }
    ensures spelled { result ≡ spelled rebuild generation size name.now }
    ensures counts { let says : Says = record { rebuild = rebuild; generation = generation; size = size; name = name.now } in
        IsTrue (is_sound says) → counting (1 ∷ result) ≡ Some says }
{
    let mut cell = [0; CELL_BYTES];
    put_kind(&mut cell, rebuild, generation, size, name);
    cell
}

fn kind_of(rebuild: bool) -> u8
    ensures { result ≡ (if rebuild then 2 else 1) }
{
    if rebuild { REBUILD } else { IMAGE }
}

/// Puts a cell's fields over the front of these bytes.
fn put_kind(bytes: &mut [u8], rebuild: bool, generation: u64, size: u64, name: &str)
    requires room { 18 + length name.now ≤ length bytes.old }
    requires short { length name.now ≤ 200 }
    ensures { bytes.new ≡ (if rebuild then 2 else 1)
        ∷ (big_bytes 8 generation ++ (big_bytes 8 size ++ (length name.now ∷ (name.now ++ drop (18 + length name.now) bytes.old)))) }
{
    bytes[0] = kind_of(rebuild);
    put_generation(&mut bytes[1..], generation, size, name);
}

/// The same from the generation on.
fn put_generation(bytes: &mut [u8], generation: u64, size: u64, name: &str)
    requires room { 17 + length name.now ≤ length bytes.old }
    requires short { length name.now ≤ 200 }
    ensures { bytes.new ≡ big_bytes 8 generation
        ++ (big_bytes 8 size ++ (length name.now ∷ (name.now ++ drop (17 + length name.now) bytes.old))) }
{
    BigEndian::write_u64(bytes, generation);
    put_length(&mut bytes[NUMBER..], size, name);
}

/// The same from the length on.
fn put_length(bytes: &mut [u8], size: u64, name: &str)
    requires room { 9 + length name.now ≤ length bytes.old }
    requires short { length name.now ≤ 200 }
    ensures { bytes.new ≡ big_bytes 8 size ++ (length name.now ∷ (name.now ++ drop (9 + length name.now) bytes.old)) }
{
    BigEndian::write_u64(bytes, size);
    put_name(&mut bytes[NUMBER..], name);
}

/// The same from the name's length on.
fn put_name(bytes: &mut [u8], name: &str)
    requires room { 1 + length name.now ≤ length bytes.old }
    requires short { length name.now ≤ 200 }
    ensures { bytes.new ≡ length name.now ∷ (name.now ++ drop (1 + length name.now) bytes.old) }
{
    bytes[0] = name.len() as u8;
    bytes[1..1 + name.len()].copy_from_slice(name.as_bytes());
}
