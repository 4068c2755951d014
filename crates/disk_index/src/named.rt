//! The words of one name: a query for an exact name looks for them by binary search over the blocks' first words.
ghost use Rattle.std.specs.Prelude.{◌≡◌, ◌++◌, ◌∷◌, ◌&&◌, ◌||◌, ◌⊎◌, ◌<◌, ◌≤◌, ◌^◌, ◌+◌, ◌*◌, ◌-◌, ℕ, List, if◌then◌else◌, [], true, false, length, filter, get_or, drop, Some, IfOk, IfErr, OnOk, MatchResult};
ghost use Rattle.java_model.specs.IndexFile.Content.{Posting, are_postings_after};
ghost use Rattle.java_model.specs.IndexFile.Spelling.{block_count};
ghost use Rattle.java_model.specs.IndexFile.Reading.{numbers_at, blocks_at, postings_at};
ghost use Rattle.index_keys.specs.Fields.{AdmitsOnly};
ghost use Rattle.disk_index.specs.Part.{numbers_from};
ghost use Rattle.disk_index.specs.Reads.{Gives, GivesSome, IsLeft, noted};
ghost use Rattle.disk_index.specs.Named.{is_past, first_word, begins_before, block_bytes, Walks, AreWords, has, Finds, IsPushed};
ghost use Rattle.disk_index.specs.declared.fault.ReadFault.TheVariants.{Memory};

use crate::blocks::{
    BLOCK_WORDS, OFFSET_BYTES, block_count, entry_number_at, head_at, next_place, skip_numbers,
};
use crate::fault::ReadFault;
use crate::fields::{from_place, number_4, slice_at};
use crate::query::admits_word;
use crate::words::is_before;
use byteorder::{BigEndian, ByteOrder};
use index_keys::Admit;
use std::alloc::{AllocError, Global};

/// Whether a word comes after each word that begins with the key.
fn is_past(key: &[u8], word: &[u8]) -> bool
    ensures { result ≡ is_past key.now word.now }
{
    let front = &word[..key.len().min(word.len())];
    is_before(key, front)
}

/// The first word of a block.
fn first_word(bytes: &[u8]) -> Result<&[u8], ReadFault>
    ensures value { Gives (λ word. word.now) result (first_word bytes.now) }
    ensures told { IfErr result IsLeft }
{
    let (_, rest) = number_4(bytes)?;
    let (len, rest) = number_4(rest)?;
    let (word, _) = slice_at(len as usize, rest)?;
    Ok(word)
}

/// Whether the first word of a block comes before the key.
fn begins_before(key: &[u8], block: &[u8]) -> bool
    ensures { result ≡ begins_before key.now block.now }
{
    match first_word(block) {
        Ok(word) => is_before(word, key),
        Err(_) => false,
    }
}

/// The bytes of a file from the beginning of a block on.
fn block_bytes<'a>(file: &'a [u8], table: &[u8], block: usize) -> &'a [u8]
    requires { block < 2 ^ 32 }
    ensures { result.now ≡ block_bytes file.now table.now block }
{
    let entry = from_place(table, OFFSET_BYTES * block);
    if entry.len() < OFFSET_BYTES {
        return &[];
    }
    from_place(file, BigEndian::read_u32(entry) as usize)
}

/// Of so many blocks the first one, or one whose first word comes before the key; that of the next one doesn't.
fn block_before(file: &[u8], table: &[u8], blocks: usize, key: &[u8]) -> usize
    requires { (0 < blocks) × (blocks < 2 ^ 32) }
    ensures within { result < blocks }
    ensures before { (result ≡ 0) ⊎ (begins_before key.now (block_bytes file.now table.now result) ≡ true) }
    ensures after { (result + 1 ≡ blocks) ⊎ (begins_before key.now (block_bytes file.now table.now (result + 1)) ≡ false) }
{
    let mut low = 0;
    let mut high = blocks;
    while high - low > 1 {
        let middle = low + (high - low) / 2;
        if begins_before(key, block_bytes(file, table, middle)) {
            low = middle;
        } else {
            high = middle;
        }
    }
    low
}

/// Adds the numbers that stand here, and gives what follows them.
fn add_numbers<'a>(
    hits: &mut Vec<u32>,
    range: u32,
    count: u32,
    start: &'a [u8],
) -> Result<&'a [u8], ReadFault>
    ensures { GivesSome (λ rest y. (rest.now ≡ y.1) × (hits.new.items ≡ hits.old.items ++ y.0)) result (numbers_at range 0 count start.now) }
{
    let mut low = 0u64;
    let mut rest = start;
    for _ in 0..count {
        let (number, after) = entry_number_at(range, low, rest)?;
        hits.push(number)?;
        low = number as u64 + 1;
        rest = after;
    }
    Ok(rest)
}

fn add_if<'a>(
    chosen: bool,
    hits: &mut Vec<u32>,
    range: u32,
    count: u32,
    start: &'a [u8],
) -> Result<&'a [u8], ReadFault>
    ensures { GivesSome (λ rest y. (rest.now ≡ y.1) × (hits.new.items ≡ hits.old.items ++ (if chosen then y.0 else [])))
        result (numbers_at range 0 count start.now) }
{
    if chosen {
        add_numbers(hits, range, count, start)
    } else {
        skip_numbers(range, count, start)
    }
}

/// Adds the numbers of the admitted ones of so many words, up to one that is past the key.
fn add_from<P: Admit>(
    alloc: Global,
    pattern: &P,
    key: &[u8],
    hits: &mut Vec<u32>,
    range: u32,
    count: u32,
    start: &[u8],
) -> Result<(), ReadFault>
    ensures { Walks (P.admitted pattern.now) key.now hits.old.items hits.new.items result (blocks_at range 0 [] count start.now) }
{
    let mut word = Vec::new(alloc);
    let mut place = 0;
    let mut rest = start;
    for _ in 0..count {
        let (many, after) = head_at(place, &mut word, rest)?;
        if is_past(key, word.as_slice()) {
            return Ok(());
        }
        let chosen = admits_word(pattern, word.as_slice());
        rest = add_if(chosen, hits, range, many, after)?;
        place = next_place(place);
    }
    Ok(())
}

/// Adds the numbers of the admitted words of a category, whose words of the name begin with the key.
fn add_category<P: Admit>(
    alloc: Global,
    pattern: &P,
    key: &[u8],
    hits: &mut Vec<u32>,
    range: u32,
    count: u32,
    file: &[u8],
    table: &[u8],
) -> Result<(), ReadFault>
    ensures { (byte : ℕ) (name : List ℕ) (postings : List Posting) → key.now ≡ byte ∷ name → AdmitsOnly (P.admitted pattern.now) (Some name)
        → AreWords file.now table.now range count postings → are_postings_after range [] postings ≡ true
        → MatchResult result (λ _. Finds (P.admitted pattern.now) byte postings hits.old.items hits.new.items) (λ e. e ≡ Memory) }
{
    if count == 0 {
        return Ok(());
    }
    let block = block_before(file, table, block_count(count), key);
    let left = count - BLOCK_WORDS as u32 * block as u32;
    add_from(
        alloc,
        pattern,
        key,
        hits,
        range,
        left,
        block_bytes(file, table, block),
    )
}

/// Makes the key of a category and a name: the words of the category with this first field begin with it.
fn set_key(key: &mut Vec<u8>, byte: u8, name: &str) -> Result<(), AllocError>
    ensures { OnOk result (key.new.items ≡ byte ∷ name.now) }
{
    key.clear();
    key.push(byte)?;
    key.extend_from_slice(name.as_bytes())
}

/// The numbers of the admitted words of a file, in no order, and some of them more than once. The name is the first
/// field of each admitted key.
pub(crate) fn named_hits<P: Admit>(
    alloc: Global,
    pattern: &P,
    name: &str,
    range: u32,
    file: &[u8],
    words: usize,
) -> Result<Vec<u32>, ReadFault>
    requires { AdmitsOnly (P.admitted pattern.now) (Some name.now) }
    ensures { (postings : List Posting) → postings_at (length file.now) range (drop words file.now) ≡ Ok postings
        → are_postings_after range [] postings ≡ true
        → MatchResult result (λ hits. (k : ℕ) → has hits.items k ≡ has (noted (P.admitted pattern.now) postings) k) (λ e. e ≡ Memory) }
{
    let (count, table) = number_4(from_place(file, words))?;
    let mut hits = Vec::new(alloc);
    let mut key = Vec::new(alloc);
    for byte in 1..10u8 {
        set_key(&mut key, byte, name)?;
        add_category(
            alloc,
            pattern,
            key.as_slice(),
            &mut hits,
            range,
            count,
            file,
            table,
        )?;
    }
    Ok(hits)
}

/// Appends a number of a live entry that is at least as great as the next one wanted, and gives the one after it.
fn push_live(
    numbers: &mut Vec<u32>,
    live: &[bool],
    next: usize,
    number: u32,
) -> Result<usize, AllocError>
    requires { number < length live.now }
    ensures { IfOk result (λ after. IsPushed live.now next number numbers.old.items numbers.new.items after) }
{
    let at = number as usize;
    if at < next {
        return Ok(next);
    }
    if live[at] {
        numbers.push(number)?;
    }
    Ok(at + 1)
}

/// Those of the numbers whose entries are live, rising.
pub(crate) fn live_hits(
    alloc: Global,
    live: &[bool],
    mut hits: Vec<u32>,
) -> Result<Vec<u32>, AllocError>
    requires small { length live.now < 2 ^ 32 }
    requires inside { (k : ℕ) → has hits.items k ≡ true → k < length live.now }
    ensures { IfOk result (λ numbers. numbers.items ≡ filter (λ n. get_or live.now n false && has hits.items n) (numbers_from 0 (length live.now))) }
{
    hits.sort_unstable();
    let mut numbers = Vec::new(alloc);
    let mut next = 0;
    for hit in hits.as_slice() {
        next = push_live(&mut numbers, live, next, *hit)?;
    }
    Ok(numbers)
}
