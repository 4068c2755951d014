ghost use Rattle.std.specs.Prelude.{◌≡◌, ◌++◌, ◌∷◌, ◌<◌, ◌^◌, if◌then◌else◌, [], true, false, length, map, get_or, OnOk};
ghost use Rattle.java_tree.specs.Keys.{category_at, is_word};
ghost use Rattle.java_model.specs.IndexFile.Content.{row_of, rows_of};
ghost use Rattle.java_model.specs.IndexFile.Reading.{numbers_at, posting_at, blocks_at};
ghost use Rattle.disk_index.specs.Reads.{GivesSome, words_at};
ghost use Rattle.disk_index.specs.Part.{live_rows};

use crate::blocks::{OFFSET_BYTES, block_count, entry_number_at, head_at, next_place};
use crate::fault::ReadFault;
use crate::fields::{number_4, slice_at};
use crate::words::text_of;
use index_keys::category_at;
use java_tree::{Row, Text};
use sqlite_items::Items;
use std::alloc::{AllocError, Global};

/// The category's byte and the text of a key's word.
fn parts_of(word: &[u8]) -> (u8, &str)
    requires { is_word word.now ≡ true }
    ensures { result.0 ∷ result.1.now ≡ word.now }
{
    match word {
        [] => (0, ""),
        [byte, key @ ..] => (*byte, text_of(key)),
    }
}

/// Pushes a row, if its entry is live.
fn push_row(
    alloc: Global,
    rows: &mut Items<Row>,
    live: &[bool],
    byte: u8,
    key: &str,
    entry: u32,
) -> Result<(), AllocError>
    requires { entry < length live.now }
    ensures { OnOk result (rows.new ≡ rows.old ++ live_rows live.now (row_of (byte ∷ key.now) entry ∷ [])) }
{
    if live[entry as usize] {
        rows.push(Row {
            category: category_at(byte),
            key: Text::from_str(alloc, key)?,
            entry,
        })?;
    }
    Ok(())
}

/// Pushes the rows of a key and of the live ones of the numbers that stand here, and gives what follows
/// them.
fn push_numbers<'a>(
    alloc: Global,
    rows: &mut Items<Row>,
    live: &[bool],
    byte: u8,
    key: &str,
    count: u32,
    start: &'a [u8],
) -> Result<&'a [u8], ReadFault>
    requires { length live.now < 2 ^ 32 }
    ensures { GivesSome (λ rest y. (rest.now ≡ y.1)
        × (rows.new ≡ rows.old ++ live_rows live.now (map (row_of (byte ∷ key.now)) y.0))) result (numbers_at (length live.now) 0 count start.now) }
{
    let mut low = 0u64;
    let mut rest = start;
    for _ in 0..count {
        let (number, after) = entry_number_at(live.len() as u32, low, rest)?;
        push_row(alloc, rows, live, byte, key, number)?;
        low = number as u64 + 1;
        rest = after;
    }
    Ok(rest)
}

/// Pushes the live rows of the word that stands here, and gives what follows it.
fn push_posting<'a>(
    alloc: Global,
    rows: &mut Items<Row>,
    live: &[bool],
    place: usize,
    word: &mut Vec<u8>,
    bytes: &'a [u8],
) -> Result<&'a [u8], ReadFault>
    requires { length live.now < 2 ^ 32 }
    ensures { GivesSome (λ rest y. (rest.now ≡ y.1) × (word.new.items ≡ y.0.word)
        × (rows.new ≡ rows.old ++ live_rows live.now (map (row_of y.0.word) y.0.numbers)))
        result (posting_at (length live.now) place word.old.items bytes.now) }
{
    let (count, rest) = head_at(place, word, bytes)?;
    let (byte, key) = parts_of(word.as_slice());
    push_numbers(alloc, rows, live, byte, key, count, rest)
}

/// Pushes the live rows of so many words.
fn push_blocks(
    alloc: Global,
    rows: &mut Items<Row>,
    live: &[bool],
    count: u32,
    start: &[u8],
) -> Result<(), ReadFault>
    requires { length live.now < 2 ^ 32 }
    ensures { GivesSome (λ _ blocks. rows.new ≡ rows.old ++ live_rows live.now (rows_of blocks.postings))
        result (blocks_at (length live.now) 0 [] count start.now) }
{
    let mut word = Vec::new(alloc);
    let mut place = 0;
    let mut rest = start;
    for _ in 0..count {
        rest = push_posting(alloc, rows, live, place, &mut word, rest)?;
        place = next_place(place);
    }
    Ok(())
}

/// The live rows of the words of a file.
pub(crate) fn words_rows(
    alloc: Global,
    live: &[bool],
    bytes: &[u8],
) -> Result<Items<Row>, ReadFault>
    requires { length live.now < 2 ^ 32 }
    ensures { GivesSome (λ rows blocks. rows ≡ live_rows live.now (rows_of blocks.postings)) result (words_at (length live.now) bytes.now) }
{
    let (count, table) = number_4(bytes)?;
    let (_, blocks) = slice_at(OFFSET_BYTES * block_count(count), table)?;
    let mut rows = Items::new(alloc);
    push_blocks(alloc, &mut rows, live, count, blocks)?;
    Ok(rows)
}
