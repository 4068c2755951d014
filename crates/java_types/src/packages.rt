//! Known packages.

ghost use Rattle.std.specs.Prelude.{◌≡◌, ◌≤◌, ◌++◌, length, map, IfOk, OnOk};
ghost use Rattle.std.specs.List.{list_any, AllByRecursion};
ghost use Rattle.java_model.specs.Names.Lists.{same_name};
ghost use Rattle.java_model.specs.Names.Environments.{is_in_package, java_lang};
ghost use Rattle.java_types.specs.Documents.{document_of};
ghost use Rattle.java_types.specs.Packages.{prefixes_of, AreKnown};

use crate::documents::KeptDocument;
use crate::keys::{name_key, prefix_keys};
use crate::lookup::first_with_key;
use crate::named::same_name;
use crate::tables::Table;
use java_tree::{Items, Text};
use std::alloc::{AllocError, Global};
use std::marker::Model;

/// The packages of documents and those around them, by their names (JLS 7.1).
#[derive(Debug, Drop)]
pub struct Packages {
    names: Items<Items<Text>>,
    table: Table,
    longest: usize,
}

impl Model for Packages {
    ghost use Rattle.std.specs.Prelude.{◌≡◌, ◌≤◌, List, length, map};
    ghost use Rattle.std.specs.List.{AllByRecursion};
    ghost use Rattle.java_model.specs.Names.Lists.{Identifiers};
    ghost use Rattle.java_types.specs.Keys.{prefix_key};

    ghost Value = { List Identifiers };

    ghost view = { λ p. p.names };

    ghost invariant = { λ p. (p.table ≡ map prefix_key p.names) × AllByRecursion (λ n. length n ≤ p.longest) p.names };
}

fn copied(alloc: Global, name: &[Text]) -> Result<Items<Text>, AllocError>
    ensures { IfOk result (λ n. n ≡ name.now) }
{
    let mut copy = Items::new(alloc);
    for identifier in name {
        copy.push(identifier.copy(alloc)?)?;
    }
    Ok(copy)
}

/// Adds a package and those around it, the outermost first.
fn add_prefixes(
    alloc: Global,
    name: &[Text],
    names: &mut Items<Items<Text>>,
) -> Result<(), AllocError>
    ensures { OnOk result (names.new ≡ names.old ++ prefixes_of name.now) }
{
    for length in 0..name.len() {
        names.push(copied(alloc, &name[..length + 1])?)?;
    }
    Ok(())
}

/// The packages of documents and those around them. A package that follows itself is added once.
fn all_prefixes(alloc: Global, documents: &[KeptDocument]) -> Result<Items<Items<Text>>, AllocError>
    ensures { IfOk result (λ names. AreKnown (map document_of documents.now) names) }
{
    let mut names = Items::new(alloc);
    let mut last: &[Text] = &[];
    for document in documents {
        let package = document.outline.package.as_slice();
        if !same_name(package, last) {
            add_prefixes(alloc, package, &mut names)?;
            last = package;
        }
    }
    Ok(names)
}

/// How many identifiers the longest name has.
fn longest(names: &[Items<Text>]) -> usize
    ensures { AllByRecursion (λ n. length n ≤ result) names.now }
{
    let mut longest = 0;
    for name in names {
        longest = longest.max(name.len());
    }
    longest
}

impl Packages {
    /// Those of these documents.
    pub(crate) fn of(alloc: Global, documents: &[KeptDocument]) -> Result<Packages, AllocError>
        ensures { IfOk result (λ names. AreKnown (map document_of documents.now) names) }
    {
        let names = all_prefixes(alloc, documents)?;
        let table = Table::of(alloc, prefix_keys(alloc, names.as_slice())?)?;
        let longest = longest(names.as_slice());
        Ok(Packages {
            names,
            table,
            longest,
        })
    }

    /// Whether a package is one of them. It goes to those whose names have this hash, unless it has more identifiers than each of them.
    pub(crate) fn has(&self, name: &[Text]) -> bool
        ensures { result ≡ list_any (same_name name.now) self.now }
    {
        if name.len() > self.longest {
            return false;
        }
        let key = name_key("", name);
        let found = first_with_key(self.names.as_slice(), &self.table, key, |package| {
            same_name(name, package.as_slice())
        });
        found.is_some()
    }
}

/// Whether a package is `java.lang` or has it in it.
pub(crate) fn has_java_lang(outer: &[Text]) -> bool
    ensures { result ≡ is_in_package outer.now java_lang }
{
    match outer {
        [] => true,
        [java] => java.as_str() == "java",
        [java, lang] => java.as_str() == "java" && lang.as_str() == "lang",
        _ => false,
    }
}
