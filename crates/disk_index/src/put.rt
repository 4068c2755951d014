ghost use Rattle.std.specs.Prelude.{◌≡◌, ◌++◌, ◌<◌, ◌≤◌, ◌^◌, ◌+◌, ℕ, map, length, slice_index, OnOk};
ghost use Rattle.byteorder.specs.Endian.{big_bytes};
ghost use Rattle.java_model.specs.IndexFile.Spelling.{entry_bytes, common, shared, numbers_bytes};
ghost use Rattle.std.specs.List.{flat_map};

use java_tree::{IndexEntry, Row};
use std::alloc::AllocError;

/// Appends the lowest two bytes of a number.
fn put_2(out: &mut Vec<u8>, number: usize) -> Result<(), AllocError>
    ensures { OnOk result (out.new.items ≡ out.old.items ++ big_bytes 2 number) }
{
    let bytes = (number as u64).to_be_bytes();
    out.extend_from_slice(&bytes[6..])
}

/// Appends the lowest four bytes of a number.
pub(crate) fn put_4(out: &mut Vec<u8>, number: usize) -> Result<(), AllocError>
    ensures { OnOk result (out.new.items ≡ out.old.items ++ big_bytes 4 number) }
{
    let bytes = (number as u64).to_be_bytes();
    out.extend_from_slice(&bytes[4..])
}

/// Appends the bytes of a stamp.
fn put_8(out: &mut Vec<u8>, number: u64) -> Result<(), AllocError>
    ensures { OnOk result (out.new.items ≡ out.old.items ++ big_bytes 8 number) }
{
    let bytes = number.to_be_bytes();
    out.extend_from_slice(&bytes)
}

/// Appends an entry.
fn put_entry(out: &mut Vec<u8>, entry: &IndexEntry) -> Result<(), AllocError>
    ensures { OnOk result (out.new.items ≡ out.old.items ++ entry_bytes entry.now) }
{
    put_2(out, entry.path.len())?;
    out.extend_from_slice(entry.path.as_str().as_bytes())?;
    put_8(out, entry.stamp)
}

/// Appends entries.
pub(crate) fn put_entries(out: &mut Vec<u8>, entries: &[IndexEntry]) -> Result<(), AllocError>
    ensures { OnOk result (out.new.items ≡ out.old.items ++ flat_map entry_bytes entries.now) }
{
    for entry in entries {
        put_entry(out, entry)?;
    }
    Ok(())
}

/// Appends the numbers of the entries of rows.
pub(crate) fn put_numbers(out: &mut Vec<u8>, rows: &[Row]) -> Result<(), AllocError>
    ensures { OnOk result (out.new.items ≡ out.old.items ++ numbers_bytes (map (λ row. row.entry) rows.now)) }
{
    for row in rows {
        put_4(out, row.entry as usize)?;
    }
    Ok(())
}

/// Appends the places of the blocks, of which the first has this place.
pub(crate) fn put_offsets(
    out: &mut Vec<u8>,
    first: usize,
    starts: &[usize],
) -> Result<(), AllocError>
    requires { (k : ℕ) → k < length starts.now → first + slice_index starts.now k < 2 ^ 64 }
    ensures { OnOk result (out.new.items ≡ out.old.items ++ numbers_bytes (map (λ start. first + start) starts.now)) }
{
    for start in starts {
        put_4(out, first + *start)?;
    }
    Ok(())
}

/// The length of the longest common prefix.
fn common(left: &[u8], right: &[u8]) -> usize
    ensures value { result ≡ common left.now right.now }
    ensures within { result ≤ length right.now }
{
    let mut at = 0;
    while at < left.len() && at < right.len() && left[at] == right[at] {
        at += 1;
    }
    at
}

/// How many bytes of the previous word a word at this place of its block isn't spelled with.
pub(crate) fn shared(place: usize, previous: &[u8], word: &[u8]) -> usize
    ensures value { result ≡ shared place previous.now word.now }
    ensures within { result ≤ length word.now }
{
    if place == 0 {
        0
    } else {
        common(previous, word)
    }
}
