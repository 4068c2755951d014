ghost use Rattle.std.specs.Prelude.{◌≡◌, [], IfErr, IfSome, List, slice_get, true};
ghost use Rattle.std.specs.Str.{is_utf8};
ghost use Rattle.std.specs.Option.{option_map};
ghost use Rattle.java_tree.specs.declared.index.IndexEntry.{IndexEntry};
ghost use Rattle.java_model.specs.IndexFile.Reading.{entry_at, entries_at};
ghost use Rattle.disk_index.specs.Reads.{Gives, IsLeft, path_at, stamp_at, GivesSome, EndsWith, Shows, entry_of};

use crate::fault::ReadFault;
use crate::fields::{from_place, number_2, number_8, slice_at};
use crate::words::is_path_after;
use java_tree::MAX_STAMP;
use std::alloc::Global;

fn path_at<'a>(previous: &[u8], bytes: &'a [u8]) -> Result<(&'a [u8], &'a [u8]), ReadFault>
    ensures value { Gives (λ x. (x.0.now, x.1.now)) result (path_at previous.now bytes.now) }
    ensures told { IfErr result IsLeft }
{
    let (len, rest) = number_2(bytes)?;
    let (path, after) = slice_at(len as usize, rest)?;
    if !is_path_after(previous, path) {
        return Err(ReadFault::Left(rest.len()));
    }
    Ok((path, after))
}

fn stamp_at(bytes: &[u8]) -> Result<(u64, &[u8]), ReadFault>
    ensures value { Gives (λ x. (x.0, x.1.now)) result (stamp_at bytes.now) }
    ensures told { IfErr result IsLeft }
{
    let (stamp, rest) = number_8(bytes)?;
    if stamp > MAX_STAMP {
        return Err(ReadFault::Left(bytes.len()));
    }
    Ok((stamp, rest))
}

/// An entry whose path comes after the previous one, and what follows it.
#[tactic(auto, unfolding(java_model::specs::IndexFile::Reading::entry_at))]
pub(crate) fn entry_at<'a>(
    previous: &[u8],
    bytes: &'a [u8],
) -> Result<(&'a [u8], u64, &'a [u8]), ReadFault>
    ensures value { Gives (λ x. (entry_of x.0.now x.1, x.2.now)) result (entry_at previous.now bytes.now) }
    ensures told { IfErr result IsLeft }
{
    let (path, rest) = path_at(previous, bytes)?;
    let (stamp, rest) = stamp_at(rest)?;
    Ok((path, stamp, rest))
}

/// The places in the file of so many entries, and what follows them.
pub(crate) fn entries_at<'a>(
    alloc: Global,
    file: &[u8],
    count: u32,
    start: &'a [u8],
) -> Result<(Vec<usize>, &'a [u8]), ReadFault>
    requires { EndsWith file.now start.now }
    ensures { GivesSome (λ x y. (x.1.now ≡ y.1) × Shows file.now x.0.items y.0) result (entries_at [] count start.now) }
{
    let mut places = Vec::new(alloc);
    let mut previous: &[u8] = &[];
    let mut rest = start;
    for _ in 0..count {
        let (path, _, after) = entry_at(previous, rest)?;
        places.push(file.len() - rest.len())?;
        previous = path;
        rest = after;
    }
    Ok((places, rest))
}

/// The path and the stamp of an entry of a file.
pub(crate) fn entry_in<'a>(file: &'a [u8], places: &[usize], at: usize) -> Option<(&'a [u8], u64)>
    ensures utf8 { IfSome result (λ x. is_utf8 x.0.now ≡ true) }
    ensures value { (entries : List IndexEntry) → Shows file.now places.now entries
        → option_map (λ x. entry_of x.0.now x.1) result ≡ slice_get entries at }
{
    if at >= places.len() {
        return None;
    }
    match entry_at(&[], from_place(file, places[at])) {
        Ok((path, stamp, _)) => Some((path, stamp)),
        Err(_) => None,
    }
}
