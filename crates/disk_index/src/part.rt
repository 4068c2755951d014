ghost use Rattle.std.specs.Prelude.{◌≡◌, ◌<◌, [], true, length, slice_get, Some, vec_len, replicate, IfOk, IfErr, MatchResult, List, false};
ghost use Rattle.java_tree.specs.declared.index.IndexEntry.{IndexEntry};
ghost use Rattle.java_tree.specs.declared.index.Row.{Row};
ghost use Rattle.java_model.specs.IndexFile.Spelling.{IsIndexFile};
ghost use Rattle.java_model.specs.IndexFile.Reading.{Content, content_at, is_old};
ghost use Rattle.disk_index.specs.declared.fault.FileFault.TheVariants.{NoMemory};
ghost use Rattle.index_keys.specs.Fields.{AdmitsOnly};
ghost use Rattle.disk_index.specs.Reads.{GivesSome};
ghost use Rattle.disk_index.specs.Part.{Part, part_of, IsTable, IsRead, IsWhole, IsFault, IsPathAt, IsStampAt, KeepsFlagged, answers_of, live_rows};

use crate::blocks::postings_at;
use crate::entries::{entries_at, entry_in};
use crate::fault::{FileFault, ReadFault};
use crate::fields::{from_place, mark_at, number_4};
use crate::named::{live_hits, named_hits};
use crate::query::{flagged, note_words};
use crate::rows::words_rows;
use crate::words::text_of;
use index_keys::Admit;
use java_tree::Row;
use sqlite_items::Items;
use std::alloc::{AllocError, Global};
use std::marker::Model;

/// The four bytes that begin a file of the older format.
const OLD_MARK: &[u8] = b"JXF1";

/// The disk part of an index: a file's bytes, the places of its entries, and which of them are live.
/// It keeps no word of its own.
#[derive(Debug, Drop)]
pub struct DiskPart {
    bytes: Vec<u8>,
    places: Vec<usize>,
    words: usize,
    live: Vec<bool>,
}

impl Model for DiskPart {
    ghost Value = { Part };

    ghost view = { λ p. part_of p.bytes.items p.live.items };

    ghost invariant = { λ p. IsTable p.bytes.items p.places.items p.words p.live.items };
}

fn is_old(bytes: &[u8]) -> bool
    ensures { result ≡ is_old bytes.now }
{
    bytes.len() >= 4 && &bytes[..4] == OLD_MARK
}

/// The places of the entries of a file, and where its words begin.
#[tactic(auto, unfolding(java_model::specs::IndexFile::Reading::content_at))]
fn read_file(alloc: Global, bytes: &[u8]) -> Result<(Vec<usize>, usize), ReadFault>
    ensures { GivesSome (λ x content. IsRead bytes.now x.0.items x.1 content) result (content_at bytes.now) }
{
    let begun = mark_at(bytes)?;
    let (count, start) = number_4(begun)?;
    let (places, rest) = entries_at(alloc, bytes, count, start)?;
    let words = bytes.len() - rest.len();
    postings_at(alloc, bytes.len(), count, rest)?;
    Ok((places, words))
}

/// So many flags.
pub(crate) fn flags(alloc: Global, flag: bool, count: usize) -> Result<Vec<bool>, AllocError>
    ensures { IfOk result (λ v. v.items ≡ replicate count flag) }
{
    vec![in alloc; flag; count]
}

/// The part of a file that was read.
fn whole(
    alloc: Global,
    bytes: Vec<u8>,
    places: Vec<usize>,
    words: usize,
) -> Result<DiskPart, FileFault>
    requires { (content : Content) × IsRead bytes.items places.items words content }
    ensures found { IfOk result (IsWhole bytes.items) }
    ensures fault { IfErr result (λ e. e ≡ NoMemory) }
{
    let Ok(live) = flags(alloc, true, places.as_slice().len()) else {
        return Err(FileFault::NoMemory);
    };
    Ok(DiskPart {
        bytes,
        places,
        words,
        live,
    })
}

impl DiskPart {
    /// The part without entries. It takes no memory.
    pub fn empty(alloc: Global) -> DiskPart
        ensures entries { result.entries ≡ [] }
        ensures rows { result.rows ≡ [] }
        ensures live { result.live ≡ [] }
    {
        DiskPart {
            bytes: Vec::new(alloc),
            places: Vec::new(alloc),
            words: 0,
            live: Vec::new(alloc),
        }
    }

    /// The part of a file, all of its entries live. `Old` exactly where it begins as a file of the older
    /// format; else `BadFile` at its first faulty field, if it has one.
    pub fn parse(alloc: Global, bytes: Vec<u8>) -> Result<DiskPart, FileFault>
        // What is parsed is a file of the part's entries and rows.
        ensures found { IfOk result (λ part. (is_old bytes.items ≡ false) × IsWhole bytes.items part) }
        // A fault has its cause.
        ensures fault { IfErr result (IsFault bytes.items) }
        // A file of entries and rows is parsed to them, unless memory runs out.
        ensures only { (entries : List IndexEntry) (rows : List Row) → IsIndexFile bytes.items entries rows
            → MatchResult result (λ part. (part.entries ≡ entries) × (part.rows ≡ rows)) (λ e. e ≡ NoMemory) }
    {
        if is_old(bytes.as_slice()) {
            return Err(FileFault::Old);
        }
        match read_file(alloc, bytes.as_slice()) {
            Ok((places, words)) => whole(alloc, bytes, places, words),
            Err(ReadFault::Memory) => Err(FileFault::NoMemory),
            Err(ReadFault::Left(left)) => Err(FileFault::BadFile(
                bytes.len().saturating_sub(left) as u64,
            )),
        }
    }

    /// How many entries there are. It takes no memory.
    pub fn entries(&self) -> u32
        ensures { result ≡ length self.now.entries }
    {
        self.places.len() as u32
    }

    /// The path of an entry. It takes no memory.
    pub fn path(&self, at: u32) -> &str
        requires { at < length self.now.entries }
        ensures { IsPathAt self.now at result.now }
    {
        match entry_in(self.bytes.as_slice(), self.places.as_slice(), at as usize) {
            Some((path, _)) => text_of(path),
            None => "",
        }
    }

    /// The stamp of an entry. It takes no memory.
    pub fn stamp(&self, at: u32) -> u64
        requires { at < length self.now.entries }
        ensures { IsStampAt self.now at result }
    {
        match entry_in(self.bytes.as_slice(), self.places.as_slice(), at as usize) {
            Some((_, stamp)) => stamp,
            None => 0,
        }
    }

    /// Whether an entry is live. It takes no memory.
    pub fn is_live(&self, at: u32) -> bool
        requires { at < length self.now.entries }
        ensures { slice_get self.now.live at ≡ Some result }
    {
        self.live[at as usize]
    }

    /// The numbers of the live entries that have an admitted key, rising. Its only error is to be out of
    /// memory. It goes over all words; for a pattern with one exact name it looks for the words of that name by
    /// binary search, and goes over these.
    pub fn query<P: Admit>(&self, alloc: Global, pattern: &P) -> Result<Vec<u32>, AllocError>
        ensures { IfOk result (λ numbers. numbers.items ≡ answers_of (P.admitted pattern.now) self.now) }
    {
        match pattern.exact() {
            Some(name) => self.query_named(alloc, pattern, name),
            None => self.query_all(alloc, pattern),
        }
    }

    /// The same, over the words of one name, which is the first field of each admitted key.
    fn query_named<P: Admit>(
        &self,
        alloc: Global,
        pattern: &P,
        name: &str,
    ) -> Result<Vec<u32>, AllocError>
        requires { AdmitsOnly (P.admitted pattern.now) (Some name.now) }
        ensures { IfOk result (λ numbers. numbers.items ≡ answers_of (P.admitted pattern.now) self.now) }
    {
        let range = self.entries();
        if range == 0 {
            return Ok(Vec::new(alloc));
        }
        match named_hits(
            alloc,
            pattern,
            name,
            range,
            self.bytes.as_slice(),
            self.words,
        ) {
            Ok(hits) => live_hits(alloc, self.live.as_slice(), hits),
            Err(_) => Err(AllocError),
        }
    }

    /// The same, over all words.
    fn query_all<P: Admit>(&self, alloc: Global, pattern: &P) -> Result<Vec<u32>, AllocError>
        ensures { IfOk result (λ numbers. numbers.items ≡ answers_of (P.admitted pattern.now) self.now) }
    {
        let mut found = flags(alloc, false, self.live.as_slice().len())?;
        let range = self.entries();
        match note_words(
            alloc,
            pattern,
            &mut found,
            range,
            from_place(self.bytes.as_slice(), self.words),
        ) {
            Ok(()) => flagged(alloc, self.live.as_slice(), found.as_slice()),
            Err(ReadFault::Memory) => Err(AllocError),
            Err(ReadFault::Left(_)) => Ok(Vec::new(alloc)),
        }
    }

    /// The rows of the live entries, in their order. Its only error is to be out of memory.
    pub fn rows(&self, alloc: Global) -> Result<Items<Row>, AllocError>
        ensures { IfOk result (λ rows. rows ≡ live_rows self.now.live self.now.rows) }
    {
        match words_rows(
            alloc,
            self.live.as_slice(),
            from_place(self.bytes.as_slice(), self.words),
        ) {
            Ok(rows) => Ok(rows),
            Err(ReadFault::Memory) => Err(AllocError),
            Err(ReadFault::Left(_)) => Ok(Items::new(alloc)),
        }
    }

    /// The part in which those entries are live that were live and are flagged. It takes no memory.
    pub fn only(self, flags: Vec<bool>) -> DiskPart
        requires { vec_len flags ≡ length self.entries }
        ensures entries { result.entries ≡ self.entries }
        ensures rows { result.rows ≡ self.rows }
        ensures live { KeepsFlagged self.live flags.items result.live }
    {
        let DiskPart {
            bytes,
            places,
            words,
            live,
        } = self;
        DiskPart {
            bytes,
            places,
            words,
            live: kept(live, flags.as_slice()),
        }
    }
}

/// The flags that are set in both.
fn kept(mut live: Vec<bool>, flags: &[bool]) -> Vec<bool>
    requires { length live.items ≡ length flags.now }
    ensures { KeepsFlagged live.items flags.now result.items }
{
    for at in 0..flags.len() {
        if !flags[at] {
            live[at] = false;
        }
    }
    live
}
