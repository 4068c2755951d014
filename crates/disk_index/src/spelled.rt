ghost use Rattle.std.specs.Prelude.{◌≡◌, ◌++◌, ◌∷◌, ◌<◌, ◌≤◌, ℕ, List, [], true, map, length, take_while, IfOk, OnOk};
ghost use Rattle.java_model.specs.IndexFile.Content.{Posting, rows_of, are_postings_after};
ghost use Rattle.java_model.specs.IndexFile.Spelling.{posting_bytes};
ghost use Rattle.disk_index.specs.Written.{row_word, same_word, posting_of, Spells};

use crate::blocks::{next_place, push_start};
use crate::put::{put_4, put_numbers, shared};
use index_keys::category_byte;
use java_tree::Row;
use std::alloc::{AllocError, Global};

/// Words as they are spelled: their bytes, where among these each block begins, how many they are, the
/// place of the next one in its block, and the last one.
#[derive(Drop)]
pub(crate) struct SpelledWords {
    pub(crate) bytes: Vec<u8>,
    pub(crate) starts: Vec<usize>,
    pub(crate) count: usize,
    place: usize,
    last: Vec<u8>,
}

/// The word of a row's key.
fn row_word(alloc: Global, row: &Row) -> Result<Vec<u8>, AllocError>
    ensures { IfOk result (λ word. word.items ≡ row_word row.now) }
{
    let mut word = Vec::new(alloc);
    word.push(category_byte(row.category))?;
    word.extend_from_slice(row.key.as_str().as_bytes())?;
    Ok(word)
}

/// Whether the keys of two rows are the same.
fn same_word(left: &Row, right: &Row) -> bool
    ensures { result ≡ same_word left.now right.now }
{
    category_byte(left.category) == category_byte(right.category)
        && left.key.as_str().as_bytes() == right.key.as_str().as_bytes()
}

/// How many rows from the first one on have its key.
fn run_length(first: &Row, rows: &[Row]) -> usize
    ensures { result ≡ length (take_while (same_word first.now) rows.now) }
{
    rows.iter().take_while(|row| same_word(first, row)).count()
}

/// Appends a word and the numbers of the entries of rows.
fn put_posting(
    out: &mut Vec<u8>,
    place: usize,
    previous: &[u8],
    word: &[u8],
    rows: &[Row],
) -> Result<(), AllocError>
    ensures { OnOk result (out.new.items ≡ out.old.items ++ posting_bytes place previous.now (posting_of word.now rows.now)) }
{
    let common = shared(place, previous, word);
    let suffix = &word[common..];
    put_4(out, common)?;
    put_4(out, suffix.len())?;
    out.extend_from_slice(suffix)?;
    put_4(out, rows.len())?;
    put_numbers(out, rows)
}

/// Spells one more word.
fn put_word(words: &mut SpelledWords, word: Vec<u8>, rows: &[Row]) -> Result<(), AllocError>
    requires { words.old.place < 16 }
    ensures within { OnOk result (words.new.place < 16) }
    ensures spelled { OnOk result ((before : List Posting) → Spells words.old before
        → Spells words.new (before ++ posting_of word.items rows.now ∷ [])) }
{
    let Some(count) = words.count.checked_add(1) else {
        return Err(AllocError);
    };
    push_start(&mut words.starts, words.place, words.bytes.as_slice().len())?;
    put_posting(
        &mut words.bytes,
        words.place,
        words.last.as_slice(),
        word.as_slice(),
        rows,
    )?;
    words.count = count;
    words.place = next_place(words.place);
    words.last = word;
    Ok(())
}

/// The words of rows, spelled. Its only error is to be out of memory.
pub(crate) fn spelled(alloc: Global, rows: &[Row]) -> Result<SpelledWords, AllocError>
    ensures { IfOk result (λ words. (range : ℕ) (postings : List Posting) → are_postings_after range [] postings ≡ true
        → rows.now ≡ rows_of postings → Spells words postings) }
{
    let mut words = SpelledWords {
        bytes: Vec::new(alloc),
        starts: Vec::new(alloc),
        count: 0,
        place: 0,
        last: Vec::new(alloc),
    };
    let mut rest = rows;
    while let [first, ..] = rest {
        let word = row_word(alloc, first)?;
        let (here, after) = rest.split_at(run_length(first, rest));
        put_word(&mut words, word, here)?;
        rest = after;
    }
    Ok(words)
}
