//! The keys by which types are looked up.

ghost use Rattle.std.specs.Prelude.{◌≡◌, [], ◌∷◌, map, IfOk};
ghost use Rattle.java_model.specs.Names.Lists.{with_dots};
ghost use Rattle.java_types.specs.Keys.{hashed, name_key, member_key, entry_is_local, entry_name_key, entry_member_key, prefix_key};

use crate::around::is_anonymous;
use crate::entry::Entry;
use java_tree::{Items, Text, TypeId};
use std::alloc::{AllocError, Global};

/// What a hash is multiplied by for each byte.
pub const HASH_FACTOR: u64 = 1099511628211;

/// The hash of a text, after what was hashed before.
fn hashed(before: u64, text: &str) -> u64
    ensures { result ≡ hashed before text.now }
{
    let mut hash = before;
    for byte in text.as_bytes() {
        hash = hash.wrapping_mul(HASH_FACTOR).wrapping_add(*byte as u64);
    }
    hash
}

/// The key of a qualified name.
pub(crate) fn name_key(qualifier: &str, names: &[Text]) -> u64
    ensures { result ≡ name_key qualifier.now names.now }
{
    let mut key = hashed(0, qualifier);
    for name in names {
        key = hashed(key, name.as_str());
    }
    key
}

/// The hash of a name with its dots.
fn dotted_hash(name: &[Text]) -> u64
    ensures { result ≡ hashed 0 (with_dots name.now) }
{
    let mut hash = 0;
    let mut rest = name;
    while let [first, _, ..] = rest {
        hash = hashed(hashed(hash, first.as_str()), ".");
        rest = &rest[1..];
    }
    match rest {
        [last, ..] => hashed(hash, last.as_str()),
        [] => hash,
    }
}

/// The key of the name of a type of a package.
pub(crate) fn package_key(qualifier: &[Text], name: &str) -> u64
    ensures { result ≡ name_key (with_dots qualifier.now) (name.now ∷ []) }
{
    hashed(dotted_hash(qualifier), name)
}

/// The key of a member type.
pub fn member_key(parent: TypeId, name: &str) -> u64
    ensures { result ≡ member_key parent name.now }
{
    hashed(parent.0, name)
}

/// Whether a type is a class declared in a block (JLS 14.3, 15.9.5).
pub(crate) fn is_local(entry: &Entry) -> bool
    ensures { result ≡ entry_is_local entry.now }
{
    entry.info.local || is_anonymous(entry.info.kind)
}

fn entry_name_key(entry: &Entry) -> Option<u64>
    ensures { result ≡ entry_name_key entry.now }
{
    if entry.unqualified {
        return None;
    }
    let package = entry.info.package.as_str();
    Some(name_key(package, entry.info.names.as_slice()))
}

fn entry_member_key(entry: &Entry) -> Option<u64>
    ensures { result ≡ entry_member_key entry.now }
{
    if is_local(entry) {
        return None;
    }
    match entry.info.parent {
        Some(parent) => Some(member_key(parent, entry.name.as_str())),
        None => None,
    }
}

/// The keys of all qualified names.
pub(crate) fn name_keys(alloc: Global, entries: &[Entry]) -> Result<Items<Option<u64>>, AllocError>
    ensures { IfOk result (λ keys. keys ≡ map entry_name_key entries.now) }
{
    let mut keys = Items::new(alloc);
    for entry in entries {
        keys.push(entry_name_key(entry))?;
    }
    Ok(keys)
}

/// The keys of all member types.
pub(crate) fn member_keys(
    alloc: Global,
    entries: &[Entry],
) -> Result<Items<Option<u64>>, AllocError>
    ensures { IfOk result (λ keys. keys ≡ map entry_member_key entries.now) }
{
    let mut keys = Items::new(alloc);
    for entry in entries {
        keys.push(entry_member_key(entry))?;
    }
    Ok(keys)
}

/// The keys of all packages.
pub(crate) fn prefix_keys(
    alloc: Global,
    names: &[Items<Text>],
) -> Result<Items<Option<u64>>, AllocError>
    ensures { IfOk result (λ keys. keys ≡ map prefix_key names.now) }
{
    let mut keys = Items::new(alloc);
    for name in names {
        keys.push(Some(name_key("", name.as_slice())))?;
    }
    Ok(keys)
}
