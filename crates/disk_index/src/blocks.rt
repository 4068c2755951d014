ghost use Rattle.std.specs.Prelude.{◌≡◌, ◌≤◌, ◌<◌, ◌++◌, [], length, IfOk, IfErr, OnOk, ⊤};
ghost use Rattle.java_model.specs.IndexFile.Spelling.{block_count, next_place};
ghost use Rattle.java_model.specs.IndexFile.Reading.{may_follow, with_start, numbers_at, posting_at, blocks_at, offsets_at, postings_at};
ghost use Rattle.disk_index.specs.Reads.{Gives, GivesSome, IsLeft, Head, head_of, shared_at, word_at, count_at, head_at, entry_number_at, offset_at};

use crate::fault::ReadFault;
use crate::fields::{end_at, number_4, slice_at};
use crate::words::{is_before, is_greater_suffix, is_word, may_share};
use std::alloc::{AllocError, Global};

/// How many words a block has, but for the last one.
pub(crate) const BLOCK_WORDS: usize = 16;

/// How many bytes an offset takes.
pub(crate) const OFFSET_BYTES: usize = 4;

pub(crate) fn block_count(words: u32) -> usize
    ensures { result ≡ block_count words }
{
    (words as usize + 15) / BLOCK_WORDS
}

pub(crate) fn next_place(place: usize) -> usize
    requires { place < 16 }
    ensures value { result ≡ next_place place }
    ensures within { result < 16 }
{
    if place == 15 { 0 } else { place + 1 }
}

fn shared_at<'a>(
    place: usize,
    previous: &[u8],
    bytes: &'a [u8],
) -> Result<(u32, &'a [u8]), ReadFault>
    ensures value { Gives (λ x. (x.0, x.1.now)) result (shared_at place previous.now bytes.now) }
    ensures within { IfOk result (λ x. x.0 ≤ length previous.now) }
    ensures told { IfErr result IsLeft }
{
    let (shared, rest) = number_4(bytes)?;
    if !may_share(place, previous, shared as usize) {
        return Err(ReadFault::Left(bytes.len()));
    }
    Ok((shared, rest))
}

fn may_follow(place: usize, previous: &[u8], shared: usize, suffix: &[u8]) -> bool
    requires { shared ≤ length previous.now }
    ensures { result ≡ may_follow place previous.now shared suffix.now }
{
    if place == 0 {
        is_before(previous, suffix)
    } else {
        is_greater_suffix(&previous[shared..], suffix)
    }
}

/// Makes the previous word the one that stands here.
fn word_at<'a>(
    place: usize,
    word: &mut Vec<u8>,
    shared: usize,
    bytes: &'a [u8],
) -> Result<&'a [u8], ReadFault>
    requires { shared ≤ length word.old.items }
    ensures { Gives (λ rest. (word.new.items, rest.now)) result (word_at place word.old.items shared bytes.now) }
{
    let (len, rest) = number_4(bytes)?;
    let (suffix, after) = slice_at(len as usize, rest)?;
    if !may_follow(place, word.as_slice(), shared, suffix) {
        return Err(ReadFault::Left(rest.len()));
    }
    word.truncate(shared);
    word.extend_from_slice(suffix)?;
    if !is_word(word.as_slice()) {
        return Err(ReadFault::Left(rest.len()));
    }
    Ok(after)
}

fn count_at(bytes: &[u8]) -> Result<(u32, &[u8]), ReadFault>
    ensures value { Gives (λ x. (x.0, x.1.now)) result (count_at bytes.now) }
    ensures told { IfErr result IsLeft }
{
    let (count, rest) = number_4(bytes)?;
    if count < 1 {
        return Err(ReadFault::Left(bytes.len()));
    }
    Ok((count, rest))
}

/// Makes the previous word the one that stands here; how many entries have it, and what follows.
#[tactic(auto, unfolding(crate::specs::Reads::head_at))]
pub(crate) fn head_at<'a>(
    place: usize,
    word: &mut Vec<u8>,
    bytes: &'a [u8],
) -> Result<(u32, &'a [u8]), ReadFault>
    ensures { Gives (λ x. (head_of word.new.items x.0, x.1.now)) result (head_at place word.old.items bytes.now) }
{
    let (shared, rest) = shared_at(place, word.as_slice(), bytes)?;
    let rest = word_at(place, word, shared as usize, rest)?;
    let (count, after) = count_at(rest)?;
    Ok((count, after))
}

/// The number of an entry, from `low` on and below `range`.
pub(crate) fn entry_number_at(range: u32, low: u64, bytes: &[u8]) -> Result<(u32, &[u8]), ReadFault>
    ensures value { Gives (λ x. (x.0, x.1.now)) result (entry_number_at range low bytes.now) }
    ensures told { IfErr result IsLeft }
{
    let (number, rest) = number_4(bytes)?;
    if (number as u64) < low || number >= range {
        return Err(ReadFault::Left(bytes.len()));
    }
    Ok((number, rest))
}

pub(crate) fn skip_numbers(range: u32, count: u32, start: &[u8]) -> Result<&[u8], ReadFault>
    ensures value { GivesSome (λ rest y. rest.now ≡ y.1) result (numbers_at range 0 count start.now) }
    ensures told { IfErr result IsLeft }
{
    let mut low = 0u64;
    let mut rest = start;
    for _ in 0..count {
        let (number, after) = entry_number_at(range, low, rest)?;
        low = number as u64 + 1;
        rest = after;
    }
    Ok(rest)
}

fn skip_posting<'a>(
    range: u32,
    place: usize,
    word: &mut Vec<u8>,
    bytes: &'a [u8],
) -> Result<&'a [u8], ReadFault>
    ensures { GivesSome (λ rest y. (rest.now ≡ y.1) × (word.new.items ≡ y.0.word)) result (posting_at range place word.old.items bytes.now) }
{
    let (count, rest) = head_at(place, word, bytes)?;
    skip_numbers(range, count, rest)
}

pub(crate) fn push_start(
    starts: &mut Vec<usize>,
    place: usize,
    left: usize,
) -> Result<(), AllocError>
    ensures { OnOk result (starts.new.items ≡ starts.old.items ++ with_start place left []) }
{
    if place == 0 {
        starts.push(left)?;
    }
    Ok(())
}

/// How many bytes were left at the beginning of each block, and what follows the blocks.
fn blocks_at(
    alloc: Global,
    range: u32,
    count: u32,
    start: &[u8],
) -> Result<(Vec<usize>, &[u8]), ReadFault>
    ensures { GivesSome (λ x y. (x.0.items ≡ y.starts) × (x.1.now ≡ y.rest)) result (blocks_at range 0 [] count start.now) }
{
    let mut word = Vec::new(alloc);
    let mut starts = Vec::new(alloc);
    let mut place = 0;
    let mut rest = start;
    for _ in 0..count {
        push_start(&mut starts, place, rest.len())?;
        rest = skip_posting(range, place, &mut word, rest)?;
        place = next_place(place);
    }
    Ok((starts, rest))
}

fn offset_at(total: usize, left: usize, bytes: &[u8]) -> Result<(u32, &[u8]), ReadFault>
    ensures value { Gives (λ x. (x.0, x.1.now)) result (offset_at total left bytes.now) }
    ensures told { IfErr result IsLeft }
{
    let (offset, rest) = number_4(bytes)?;
    if left > total || total - left != offset as usize {
        return Err(ReadFault::Left(bytes.len()));
    }
    Ok((offset, rest))
}

fn offsets_at(total: usize, starts: &[usize], table: &[u8]) -> Result<(), ReadFault>
    ensures value { GivesSome (λ _ _. ⊤) result (offsets_at total starts.now table.now) }
    ensures told { IfErr result IsLeft }
{
    let mut rest = table;
    for left in starts {
        let (_, after) = offset_at(total, *left, rest)?;
        rest = after;
    }
    Ok(())
}

/// That the words of a file of so many bytes and entries stand here, up to its end.
#[tactic(auto, unfolding(java_model::specs::IndexFile::Reading::postings_at))]
pub(crate) fn postings_at(
    alloc: Global,
    total: usize,
    range: u32,
    bytes: &[u8],
) -> Result<(), ReadFault>
    ensures { GivesSome (λ _ _. ⊤) result (postings_at total range bytes.now) }
{
    let (count, table) = number_4(bytes)?;
    let (_, blocks) = slice_at(OFFSET_BYTES * block_count(count), table)?;
    let (starts, rest) = blocks_at(alloc, range, count, blocks)?;
    offsets_at(total, starts.as_slice(), table)?;
    end_at(rest)
}
