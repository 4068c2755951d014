//! Names of types.

ghost use Rattle.std.specs.Prelude.{◌≡◌, ◌<◌, ◌≤◌, false, length, IfOk, IsTrue};
ghost use Rattle.std.specs.List.{list_any, AllByRecursion};
ghost use Rattle.std.specs.Option.{option_map_or};
ghost use Rattle.java_model.specs.Names.Environments.{same_id};
ghost use Rattle.java_model.specs.Names.Lists.{same_name, with_dots};
ghost use Rattle.java_types.specs.Entries.{entry_is_named};
ghost use Rattle.java_types.specs.Keys.{entry_is_member};

use crate::entry::Entry;
use crate::keys::is_local;
use java_tree::{Text, TypeId};
use std::alloc::{AllocError, Global};

/// A name with its dots.
pub fn with_dots(alloc: Global, name: &[Text]) -> Result<Text, AllocError>
    ensures { IfOk result (λ t. t ≡ with_dots name.now) }
{
    let mut dotted = String::new(alloc);
    let mut rest = name;
    while let [first, _, ..] = rest {
        dotted.push_str(first.as_str())?;
        dotted.push('.')?;
        rest = &rest[1..];
    }
    if let [last, ..] = rest {
        dotted.push_str(last.as_str())?;
    }
    Ok(Text::from_string(dotted))
}

/// Whether a name is longer than a text, its dots left out.
pub(crate) fn is_longer(name: &[Text], longest: usize) -> bool
    ensures { IsTrue result → longest < length (with_dots name.now) }
{
    let mut left = longest;
    for identifier in name {
        let size = identifier.as_str().len();
        if size > left {
            return true;
        }
        left -= size;
    }
    false
}

/// The length of the longest name of a package.
pub(crate) fn longest_package(entries: &[Entry]) -> usize
    ensures { AllByRecursion (λ e. length e.info.«package» ≤ result) entries.now }
{
    let mut longest = 0;
    for entry in entries {
        longest = longest.max(entry.info.package.as_str().len());
    }
    longest
}

pub(crate) fn same_name(left: &[Text], right: &[Text]) -> bool
    ensures { result ≡ same_name left.now right.now }
{
    let mut others = right;
    for name in left {
        let [other, ..] = others else {
            return false;
        };
        if name.as_str() != other.as_str() {
            return false;
        }
        others = &others[1..];
    }
    others.is_empty()
}

/// Whether a type has this qualified name (JLS 6.7).
pub(crate) fn is_named(entry: &Entry, qualifier: &str, names: &[Text]) -> bool
    ensures { result ≡ entry_is_named qualifier.now names.now entry.now }
{
    !entry.unqualified
        && qualifier == entry.info.package.as_str()
        && same_name(names, entry.info.names.as_slice())
}

/// Whether a type has this qualified name.
pub(crate) fn has_named(entries: &[Entry], qualifier: &str, names: &[Text]) -> bool
    ensures { result ≡ list_any (entry_is_named qualifier.now names.now) entries.now }
{
    entries
        .iter()
        .any(|entry| is_named(entry, qualifier, names))
}

fn is_parent(parent: TypeId, of: Option<TypeId>) -> bool
    ensures { result ≡ option_map_or (same_id parent) of false }
{
    match of {
        Some(id) => parent.0 == id.0,
        None => false,
    }
}

/// Whether a type is a member type of another with this name (JLS 8.5).
pub(crate) fn is_member(entry: &Entry, parent: TypeId, name: &str) -> bool
    ensures { result ≡ entry_is_member parent name.now entry.now }
{
    !is_local(entry) && name == entry.name.as_str() && is_parent(parent, entry.info.parent)
}
