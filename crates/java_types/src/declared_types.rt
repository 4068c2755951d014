ghost use Rattle.std.specs.Prelude.{◌≡◌, ◌+◌, ◌<◌, [], ◌∷◌, ◌++◌, Some, map, length, option_map, option_to_list, position, IsTrue, slice_get, IfOk, MatchOption, OnOk};
ghost use Rattle.std.specs.Option.{option_copied};
ghost use Rattle.java_model.specs.Names.Environments.{Declared, declared, declared_at, declared_by, declared_in, first_declaration, is_named, is_known_package, name_at, type_at, type_id, type_info, type_named};
ghost use Rattle.java_model.specs.Matches.TypePatterns.{qualification_of};
ghost use Rattle.java_model.specs.Names.Lists.{with_dots};
ghost use Rattle.java_model.specs.Names.Supertypes.{declared_types, is_member_type};
ghost use Rattle.java_model.specs.Names.TypeNames.{is_called};
ghost use Rattle.java_types.specs.Documents.{document_of};
ghost use Rattle.java_types.specs.Placed.{placed_among};
ghost use Rattle.java_types.specs.Entries.{entry_of, firsts_of, has_no_document, is_declared, AddsJavaLang};

use crate::around::type_in;
use crate::declared_type::DeclaredType;
use crate::documents::{EnvDocs, KeptDocument};
use crate::entry::{Entry, entry_of, undeclared};
use crate::finding::{place_by_type, place_of};
use crate::keys::{member_key, member_keys, name_key, name_keys, package_key};
use crate::lookup::first_with_key;
use crate::named::{has_named, is_longer, is_member, is_named, longest_package, with_dots};
use crate::packages::{Packages, has_java_lang};
use crate::placed_outline::PlacedOutline;
use crate::tables::Table;
use java_tree::{DocPath, Items, Text, TypeId, TypeInfo};
use std::alloc::{AllocError, Global};
use std::marker::Model;

/// The types that documents declare, numbered through all documents in order, and `java.lang.Object` and
/// `java.lang.String` after them where no document declares them (JLS 4.3.2, 4.3.3).
#[derive(Debug, Drop)]
pub struct DeclaredTypes {
    documents: Items<KeptDocument>,
    firsts: Items<u64>,
    entries: Items<Entry>,
    names: Table,
    members: Table,
    packages: Packages,
    longest: usize,
}

impl Model for DeclaredTypes {
    ghost use Rattle.std.specs.Prelude.{List, map};
    ghost use Rattle.java_model.specs.Names.Environments.{EnvDocument};
    ghost use Rattle.java_types.specs.Documents.{document_of};
    ghost use Rattle.java_types.specs.Entries.{IsEnvOf};

    ghost Value = { List EnvDocument };

    ghost view = { λ e. map document_of e.documents };

    ghost invariant = { λ e. IsEnvOf (map document_of e.documents) e.firsts e.entries e.names e.members e.packages e.longest };
}

/// The id of a type of a document, which is below the number of all types.
fn id_below(first: u64, number: u64, count: usize) -> TypeId
    requires { first + number < count }
    ensures { result ≡ type_id (first + number) }
{
    TypeId(first + number)
}

fn entry_in(entries: &[Entry], id: TypeId) -> Option<&Entry>
    ensures { option_copied result ≡ slice_get entries.now id.0 }
{
    entries.get(id.0 as usize)
}

fn as_id(number: Option<u64>) -> Option<TypeId>
    ensures { result ≡ option_map type_id number }
{
    match number {
        Some(number) => Some(TypeId(number)),
        None => None,
    }
}

/// Adds the types of a document.
fn add_types(
    alloc: Global,
    document: &KeptDocument,
    entries: &mut Items<Entry>,
) -> Result<(), AllocError>
    ensures { OnOk result (entries.new ≡ entries.old ++ map entry_of (declared_in (Some document.now.path) document.now.outline (length entries.old) 0 document.now.outline.types)) }
{
    let first = entries.len() as u64;
    let package = with_dots(alloc, document.outline.package.as_slice())?;
    let mut number = 0;
    for declared in document.outline.types.as_slice() {
        entries.push(entry_of(alloc, document, &package, first, number, declared)?)?;
        number += 1;
    }
    Ok(())
}

/// Adds the types of all documents, and the number of each document's first type.
fn add_documents(
    alloc: Global,
    documents: &[KeptDocument],
    firsts: &mut Items<u64>,
    entries: &mut Items<Entry>,
) -> Result<(), AllocError>
    requires none { firsts.old ≡ [] }
    requires no_types { entries.old ≡ [] }
    ensures firsts { OnOk result (firsts.new ≡ firsts_of 0 (map document_of documents.now)) }
    ensures entries { OnOk result (entries.new ≡ map entry_of (declared_by 0 (map document_of documents.now))) }
{
    for document in documents {
        firsts.push(entries.len() as u64)?;
        add_types(alloc, document, entries)?;
    }
    Ok(())
}

/// Adds a class of `java.lang` where no document declares it.
fn add_java_lang(alloc: Global, name: &str, entries: &mut Items<Entry>) -> Result<(), AllocError>
    ensures { OnOk result (AddsJavaLang name.now entries.old entries.new) }
{
    let names = [Text::from_str(alloc, name)?];
    if has_named(entries.as_slice(), "java.lang", &names) {
        return Ok(());
    }
    entries.push(undeclared(alloc, entries.len() as u64, name)?)?;
    Ok(())
}

impl DeclaredTypes {
    /// The environment of these documents, of which there may be none. Each type is looked at once, with the types
    /// around it.
    pub fn of(alloc: Global, docs: EnvDocs) -> Result<DeclaredTypes, AllocError>
        ensures { IfOk result (λ env. env ≡ docs) }
    {
        let documents = docs.into_documents();
        let packages = Packages::of(alloc, documents.as_slice())?;
        let mut firsts = Items::new(alloc);
        let mut entries = Items::new(alloc);
        add_documents(alloc, documents.as_slice(), &mut firsts, &mut entries)?;
        add_java_lang(alloc, "Object", &mut entries)?;
        add_java_lang(alloc, "String", &mut entries)?;
        let names = Table::of(alloc, name_keys(alloc, entries.as_slice())?)?;
        let members = Table::of(alloc, member_keys(alloc, entries.as_slice())?)?;
        let longest = longest_package(entries.as_slice());
        Ok(DeclaredTypes {
            documents,
            firsts,
            entries,
            names,
            members,
            packages,
            longest,
        })
    }

    /// The number of types. Their ids are the numbers below it.
    pub fn len(&self) -> usize
        ensures { result ≡ length (declared self.now) }
    {
        self.entries.len()
    }

    /// Whether a type is one of this environment.
    pub fn has(&self, id: TypeId) -> bool
        ensures { result ≡ is_declared self.now id }
    {
        id.0 < self.entries.len() as u64
    }

    /// What is known of a type.
    pub fn type_info(&self, id: TypeId) -> &TypeInfo
        requires { IsTrue (is_declared self.now id) }
        ensures { Some result.now ≡ type_info self.now id }
    {
        let entry = &self.entries.as_slice()[id.0 as usize];
        &entry.info
    }

    /// Whether a type has this qualified name (JLS 6.7).
    pub fn is_named(&self, id: TypeId, qualifier: &str, names: &[Text]) -> bool
        requires { IsTrue (is_declared self.now id) }
        ensures { (d : Declared) → declared_at self.now id ≡ Some d → result ≡ is_named qualifier.now names.now d }
    {
        is_named(&self.entries.as_slice()[id.0 as usize], qualifier, names)
    }

    /// The type as its document declares it, if one does, by a binary search for its number.
    pub fn declared_type(&self, id: TypeId) -> Option<DeclaredType<'_>>
        ensures { MatchOption result (has_no_document self.now id) (λ d. declared_at self.now id ≡ Some d) }
    {
        let Some(entry) = entry_in(self.entries.as_slice(), id) else {
            return None;
        };
        let Some(path) = &entry.info.doc else {
            return None;
        };
        let documents = self.documents.as_slice();
        let Some(place) = place_by_type(documents, self.firsts.as_slice(), id, path) else {
            return None;
        };
        let document = &self.documents.as_slice()[place];
        let number = entry.info.number;
        let Some(of) = type_in(document.outline.types.as_slice(), number) else {
            return None;
        };
        Some(DeclaredType {
            path: &document.path,
            outline: &document.outline,
            of,
            first: id.0.saturating_sub(number),
            number,
        })
    }

    /// The outline of the document with this path, by a binary search.
    pub fn document(&self, doc: &DocPath) -> Option<PlacedOutline<'_>>
        ensures { result ≡ placed_among doc.now 0 self.now }
    {
        let Some(place) = place_of(self.documents.as_slice(), doc) else {
            return None;
        };
        let document = &self.documents.as_slice()[place];
        let first = self.firsts.as_slice()[place];
        Some(PlacedOutline {
            outline: &document.outline,
            first,
        })
    }

    /// The simple name of a type, which is empty for an anonymous class.
    pub fn simple_name(&self, id: TypeId) -> &str
        requires { IsTrue (is_declared self.now id) }
        ensures { Some result.now ≡ name_at self.now id }
    {
        let entry = &self.entries.as_slice()[id.0 as usize];
        entry.name.as_str()
    }

    /// The package and the names of the types around a type, with dots, none where it has no qualified name (JLS 6.7).
    pub fn qualification(&self, id: TypeId) -> Option<&str>
        requires { IsTrue (is_declared self.now id) }
        ensures { Some (option_copied result) ≡ option_map qualification_of (declared_at self.now id) }
    {
        let entry = &self.entries.as_slice()[id.0 as usize];
        match &entry.qualification {
            Some(text) => Some(text.as_str()),
            None => None,
        }
    }

    /// Whether this is the simple name of a type. One that is none of this environment is called nothing.
    pub fn is_called(&self, name: &str, id: TypeId) -> bool
        ensures { result ≡ is_called self.now name.now id }
    {
        match self.entries.as_slice().get(id.0 as usize) {
            Some(entry) => name == entry.name.as_str(),
            None => false,
        }
    }

    /// The type with this number in the outline of a document, by a binary search for the document.
    pub fn type_at(&self, doc: &DocPath, number: u64) -> Option<TypeId>
        ensures { result ≡ type_at self.now doc.now number }
    {
        let Some(place) = place_of(self.documents.as_slice(), doc) else {
            return None;
        };
        let document = &self.documents.as_slice()[place];
        if number < document.outline.types.len() as u64 {
            let first = self.firsts.as_slice()[place];
            Some(id_below(first, number, self.entries.len()))
        } else {
            None
        }
    }

    /// The type of a package and names. It goes to the types whose names have this hash.
    pub fn type_named(&self, qualifier: &str, names: &[Text]) -> Option<TypeId>
        ensures { result ≡ type_named self.now qualifier.now names.now }
    {
        let key = name_key(qualifier, names);
        let number = first_with_key(self.entries.as_slice(), &self.names, key, |entry| {
            is_named(entry, qualifier, names)
        });
        as_id(number)
    }

    /// The type of a package by its simple name. It takes memory only where names of types have this hash.
    pub fn type_in_package(
        &self,
        alloc: Global,
        qualifier: &[Text],
        name: &str,
    ) -> Result<Option<TypeId>, AllocError>
        ensures { IfOk result (λ t. t ≡ type_named self.now (with_dots qualifier.now) (name.now ∷ [])) }
    {
        if is_longer(qualifier, self.longest) {
            return Ok(None);
        }
        let key = package_key(qualifier, name);
        if self.names.first(key).is_none() {
            return Ok(None);
        }
        let dotted = with_dots(alloc, qualifier)?;
        let names = [Text::from_str(alloc, name)?];
        Ok(self.type_named(dotted.as_str(), &names))
    }

    /// The declaration of a type that counts, which is its first (JLS 7.6).
    pub(crate) fn first_of(&self, id: TypeId) -> TypeId
        requires { IsTrue (is_declared self.now id) }
        ensures { (d : Declared) → declared_at self.now id ≡ Some d → result ≡ first_declaration self.now d }
    {
        let entry = &self.entries.as_slice()[id.0 as usize];
        if entry.unqualified {
            return id;
        }
        let package = entry.info.package.as_str();
        let named = self.type_named(package, entry.info.names.as_slice());
        named.unwrap_or(id)
    }

    /// The number of the first member type of a type with this name.
    fn member_number(&self, t: TypeId, name: &str) -> Option<u64>
        ensures { result ≡ position (is_member_type t name.now) (declared self.now) }
    {
        let key = member_key(t, name);
        first_with_key(self.entries.as_slice(), &self.members, key, |entry| {
            is_member(entry, t, name)
        })
    }

    /// The member type that a type declares by this name. It goes to the types whose parent and name have this hash.
    pub fn declared_member(&self, t: TypeId, name: &str) -> Option<TypeId>
        ensures { option_to_list result ≡ declared_types self.now t name.now }
    {
        match self.member_number(t, name) {
            Some(number) => Some(self.first_of(TypeId(number))),
            None => None,
        }
    }

    /// Whether a package is known (JLS 7.1). It goes to the packages whose names have this hash.
    pub fn is_known_package(&self, name: &[Text]) -> bool
        ensures { result ≡ is_known_package self.now name.now }
    {
        if name.is_empty() {
            return false;
        }
        has_java_lang(name) || self.packages.has(name)
    }
}
