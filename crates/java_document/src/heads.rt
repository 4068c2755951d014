//! What the heads of types give.

ghost use Rattle.std.specs.Prelude.{◌≡◌, IfOk};
ghost use Rattle.java_tree.specs.declared.unit.TypeHead.TheVariants as heads;
ghost use Rattle.java_document.specs.Outlining.{head_of};

use crate::head::Head;
use crate::hole::FoundHole;
use crate::spelled::{optional_name, spelled_modifiers, spelled_names};
use java_tree::{ClassHead, InterfaceHead, Items, Text, TypeHead, TypeKind};
use std::alloc::{AllocError, Global};

fn copy_name(alloc: Global, name: &[Text]) -> Result<Items<Text>, AllocError>
    ensures { IfOk result (λ n. n ≡ name.now) }
{
    let mut copies = Items::new(alloc);
    for word in name {
        copies.push(word.copy(alloc)?)?;
    }
    Ok(copies)
}

fn class_head(alloc: Global, found: &FoundHole, class: &ClassHead) -> Result<Head, AllocError>
    ensures { IfOk result (λ h. h ≡ head_of found.now (heads.Class class.now)) }
{
    let name = class.name.name.copy(alloc)?;
    let extends = optional_name(alloc, &class.extends)?;
    let implements = spelled_names(alloc, class.implements.as_slice())?;
    Ok(Head {
        kind: TypeKind::Class,
        name,
        span: class.name.span,
        modifiers: spelled_modifiers(class.modifiers.as_slice()),
        extends,
        implements,
    })
}

fn interface_head(
    alloc: Global,
    found: &FoundHole,
    interface: &InterfaceHead,
) -> Result<Head, AllocError>
    ensures { IfOk result (λ h. h ≡ head_of found.now (heads.Interface interface.now)) }
{
    let name = interface.name.name.copy(alloc)?;
    let extends = spelled_names(alloc, interface.extends.as_slice())?;
    Ok(Head {
        kind: TypeKind::Interface,
        name,
        span: interface.name.span,
        modifiers: spelled_modifiers(interface.modifiers.as_slice()),
        extends,
        implements: Items::new(alloc),
    })
}

fn anonymous_head(alloc: Global, found: &FoundHole) -> Result<Head, AllocError>
    ensures { IfOk result (λ h. h ≡ head_of found.now heads.Anonymous) }
{
    let name = Text::from_str(alloc, "")?;
    let created = copy_name(alloc, found.created.as_slice())?;
    let mut extends = Items::new(alloc);
    extends.push(created)?;
    Ok(Head {
        kind: TypeKind::Anonymous,
        name,
        span: found.span,
        modifiers: 0,
        extends,
        implements: Items::new(alloc),
    })
}

/// What the head of a type gives in a hole.
pub(crate) fn head_of(alloc: Global, found: &FoundHole, head: &TypeHead) -> Result<Head, AllocError>
    ensures { IfOk result (λ h. h ≡ head_of found.now head.now) }
{
    match head {
        TypeHead::Class(class) => class_head(alloc, found, class),
        TypeHead::Interface(interface) => interface_head(alloc, found, interface),
        TypeHead::Anonymous => anonymous_head(alloc, found),
    }
}
