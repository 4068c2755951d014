ghost use Rattle.std.specs.Prelude.{◌≡◌, ◌+◌, Some, None, option_map, length, IfOk};
ghost use Rattle.java_tree.specs.declared.occurrence.TypeId.{TypeId};
ghost use Rattle.java_model.specs.Names.Lists.{with_dots};
ghost use Rattle.java_model.specs.Names.Environments.{undeclared, type_id};
ghost use Rattle.java_types.specs.Entries.{around_in, entry_of};

use crate::around::{is_unqualified, names_of, types_around};
use crate::documents::KeptDocument;
use crate::qualification::qualification_of;
use java_tree::{DocPath, Items, OutlineType, Span, Text, TypeId, TypeInfo, TypeKind};
use std::alloc::{AllocError, Global};

/// A declared type, its simple name, whether it has no qualified name, and the qualification of one that has.
#[derive(Debug, Drop)]
pub struct Entry {
    pub info: TypeInfo,
    pub name: Text,
    pub unqualified: bool,
    pub qualification: Option<Text>,
}

fn copy_path(alloc: Global, path: &DocPath) -> Result<DocPath, AllocError>
    ensures { IfOk result (λ p. p ≡ path.now) }
{
    let container = path.container.copy(alloc)?;
    let path = path.path.copy(alloc)?;
    Ok(DocPath { container, path })
}

/// The id of the type around a type. No outline is long enough for the sum to overflow.
fn parent_of(first: u64, parent: Option<u64>) -> Result<Option<TypeId>, AllocError>
    ensures { IfOk result (λ p. p ≡ option_map (λ n. type_id (first + n)) parent) }
{
    match parent {
        Some(number) => match first.checked_add(number) {
            Some(id) => Ok(Some(TypeId(id))),
            None => Err(AllocError),
        },
        None => Ok(None),
    }
}

/// What is kept of a type of a document.
pub(crate) fn entry_of(
    alloc: Global,
    document: &KeptDocument,
    qualifier: &Text,
    first: u64,
    number: u64,
    declared: &OutlineType,
) -> Result<Entry, AllocError>
    requires { qualifier.now ≡ with_dots document.now.outline.«package» }
    ensures { IfOk result (λ e. e ≡ entry_of (record { doc = Some document.now.path; outline = document.now.outline; first = first; number = number; type = declared.now })) }
{
    let types = document.outline.types.as_slice();
    let around = types_around(alloc, types, number)?;
    let doc = copy_path(alloc, &document.path)?;
    let package = qualifier.copy(alloc)?;
    let names = names_of(alloc, types, around.as_slice())?;
    let unqualified = is_unqualified(types, around.as_slice());
    let outer = document.outline.package.as_slice();
    let qualification = qualification_of(alloc, unqualified, outer, qualifier, names.as_slice())?;
    let parent = parent_of(first, declared.parent)?;
    let name = declared.name.copy(alloc)?;
    let info = TypeInfo {
        doc: Some(doc),
        number,
        package,
        names,
        kind: declared.kind,
        local: declared.local,
        modifiers: declared.modifiers,
        parent,
        span: declared.span,
    };
    Ok(Entry {
        info,
        name,
        unqualified,
        qualification,
    })
}

/// What is kept of a class of `java.lang` that no document declares.
pub(crate) fn undeclared(alloc: Global, id: u64, name: &str) -> Result<Entry, AllocError>
    ensures { IfOk result (λ e. e ≡ entry_of (undeclared id name.now)) }
{
    let package = Text::from_str(alloc, "java.lang")?;
    let mut names = Items::new(alloc);
    names.push(Text::from_str(alloc, name)?)?;
    let name = Text::from_str(alloc, name)?;
    let qualification = package.copy(alloc)?;
    let info = TypeInfo {
        doc: None,
        number: 0,
        package,
        names,
        kind: TypeKind::Class,
        local: false,
        modifiers: 0,
        parent: None,
        span: Span { start: 0, end: 0 },
    };
    Ok(Entry {
        info,
        name,
        unqualified: false,
        qualification: Some(qualification),
    })
}
