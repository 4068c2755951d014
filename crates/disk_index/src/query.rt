ghost use Rattle.std.specs.Prelude.{◌≡◌, ◌++◌, ◌&&◌, ◌<◌, ◌^◌, ◌∷◌, if◌then◌else◌, [], length, filter, get_or, false, IfOk, OnOk};
ghost use Rattle.std.specs.Str.{is_utf8};
ghost use Rattle.java_tree.specs.Keys.{category_at};
ghost use Rattle.java_model.specs.IndexFile.Reading.{numbers_at, posting_at, blocks_at};
ghost use Rattle.disk_index.specs.Reads.{GivesSome, Notes, admits_word, noted_in, noted, words_at};
ghost use Rattle.disk_index.specs.Part.{numbers_from};

use crate::blocks::{
    OFFSET_BYTES, block_count, entry_number_at, head_at, next_place, skip_numbers,
};
use crate::fault::ReadFault;
use crate::fields::{number_4, slice_at};
use index_keys::{Admit, category_at};
use std::alloc::{AllocError, Global};

fn admits_key<P: Admit>(pattern: &P, byte: u8, key: &[u8]) -> bool
    ensures { result ≡ (is_utf8 key.now && P.admitted pattern.now (category_at byte) key.now) }
{
    match str::from_utf8(key) {
        Ok(text) => pattern.admits(category_at(byte), text),
        Err(_) => false,
    }
}

/// Whether the word of a key is admitted.
pub(crate) fn admits_word<P: Admit>(pattern: &P, word: &[u8]) -> bool
    ensures { result ≡ admits_word (P.admitted pattern.now) word.now }
{
    match word {
        [] => false,
        [byte, key @ ..] => admits_key(pattern, *byte, key),
    }
}

/// Notes the numbers that stand here, and gives what follows them.
fn note_numbers<'a>(
    found: &mut Vec<bool>,
    range: u32,
    count: u32,
    start: &'a [u8],
) -> Result<&'a [u8], ReadFault>
    requires { length found.old.items ≡ range }
    ensures { GivesSome (λ rest y. (rest.now ≡ y.1) × Notes found.old.items y.0 found.new.items) result (numbers_at range 0 count start.now) }
{
    let mut low = 0u64;
    let mut rest = start;
    for _ in 0..count {
        let (number, after) = entry_number_at(range, low, rest)?;
        found[number as usize] = true;
        low = number as u64 + 1;
        rest = after;
    }
    Ok(rest)
}

fn note_if<'a>(
    chosen: bool,
    found: &mut Vec<bool>,
    range: u32,
    count: u32,
    start: &'a [u8],
) -> Result<&'a [u8], ReadFault>
    requires { length found.old.items ≡ range }
    ensures { GivesSome (λ rest y. (rest.now ≡ y.1) × Notes found.old.items (if chosen then y.0 else []) found.new.items)
        result (numbers_at range 0 count start.now) }
{
    if chosen {
        note_numbers(found, range, count, start)
    } else {
        skip_numbers(range, count, start)
    }
}

/// Notes the entries of the word that stands here, if it is admitted, and gives what follows it.
fn note_posting<'a, P: Admit>(
    pattern: &P,
    found: &mut Vec<bool>,
    range: u32,
    place: usize,
    word: &mut Vec<u8>,
    bytes: &'a [u8],
) -> Result<&'a [u8], ReadFault>
    requires { length found.old.items ≡ range }
    ensures { GivesSome (λ rest y. (rest.now ≡ y.1) × (word.new.items ≡ y.0.word)
        × Notes found.old.items (noted_in (P.admitted pattern.now) y.0) found.new.items)
        result (posting_at range place word.old.items bytes.now) }
{
    let (count, rest) = head_at(place, word, bytes)?;
    let chosen = admits_word(pattern, word.as_slice());
    note_if(chosen, found, range, count, rest)
}

/// Notes the entries of the admitted ones of so many words.
fn note_blocks<P: Admit>(
    alloc: Global,
    pattern: &P,
    found: &mut Vec<bool>,
    range: u32,
    count: u32,
    start: &[u8],
) -> Result<(), ReadFault>
    requires { length found.old.items ≡ range }
    ensures { GivesSome (λ _ blocks. Notes found.old.items (noted (P.admitted pattern.now) blocks.postings) found.new.items)
        result (blocks_at range 0 [] count start.now) }
{
    let mut word = Vec::new(alloc);
    let mut place = 0;
    let mut rest = start;
    for _ in 0..count {
        rest = note_posting(pattern, found, range, place, &mut word, rest)?;
        place = next_place(place);
    }
    Ok(())
}

/// Notes the entries of the admitted words of a file.
pub(crate) fn note_words<P: Admit>(
    alloc: Global,
    pattern: &P,
    found: &mut Vec<bool>,
    range: u32,
    bytes: &[u8],
) -> Result<(), ReadFault>
    requires { length found.old.items ≡ range }
    ensures { GivesSome (λ _ blocks. Notes found.old.items (noted (P.admitted pattern.now) blocks.postings) found.new.items)
        result (words_at range bytes.now) }
{
    let (count, table) = number_4(bytes)?;
    let (_, blocks) = slice_at(OFFSET_BYTES * block_count(count), table)?;
    note_blocks(alloc, pattern, found, range, count, blocks)
}

fn push_if(numbers: &mut Vec<u32>, chosen: bool, number: u32) -> Result<(), AllocError>
    ensures { OnOk result (numbers.new.items ≡ numbers.old.items ++ (if chosen then number ∷ [] else [])) }
{
    if chosen {
        numbers.push(number)?;
    }
    Ok(())
}

fn are_flagged(live: &[bool], found: &[bool], at: usize) -> bool
    requires live { at < length live.now }
    requires found { at < length found.now }
    ensures { result ≡ (get_or live.now at false && get_or found.now at false) }
{
    live[at] && found[at]
}

/// The places that are flagged in both.
pub(crate) fn flagged(alloc: Global, live: &[bool], found: &[bool]) -> Result<Vec<u32>, AllocError>
    requires small { length live.now < 2 ^ 32 }
    requires long { length found.now ≡ length live.now }
    ensures { IfOk result (λ numbers. numbers.items
        ≡ filter (λ n. get_or live.now n false && get_or found.now n false) (numbers_from 0 (length live.now))) }
{
    let mut numbers = Vec::new(alloc);
    for at in 0..live.len() {
        let chosen = are_flagged(live, found, at);
        push_if(&mut numbers, chosen, at as u32)?;
    }
    Ok(numbers)
}
