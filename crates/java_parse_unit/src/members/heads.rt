//! What stands before the body of a type (JLS 8.1, 9.1).

ghost use Rattle.std.specs.Prelude.{◌≡◌};
ghost use Rattle.java_tree.specs.declared.mark.Mark.TheVariants as marks;
ghost use Rattle.java_unit_reading.specs.Gives.{Gives};
ghost use Rattle.java_unit_reading.specs.Reading.Steps.{introduced, choose, sees, and_then};
ghost use Rattle.java_unit_reading.specs.Reading.Words.{name, modifiers};
ghost use Rattle.java_unit_reading.specs.Reading.Members as spec;

use java_tree::{
    ClassHead, Ident, InterfaceHead, Items, Mark, Modifier, Name, TypeHead, TypePlace,
};
use java_unit_reading::words::{clause, modifiers, name};
use java_unit_reading::{Reader, UnitFault};
use std::alloc::Global;

/// `extends` and the name of a class, if `extends` comes next (JLS 8.1.3).
fn superclass(alloc: Global, reader: &mut Reader<'_>) -> Result<Option<Name>, UnitFault>
    ensures { Gives (introduced marks.Extends name reader.old) result reader.new }
{
    if reader.sees(Mark::Extends) {
        reader.expect(Mark::Extends)?;
        Ok(Some(name(alloc, reader)?))
    } else {
        Ok(None)
    }
}

/// The head of a class, after its modifiers (JLS 8.1).
#[tactic(auto, unfolding(java_unit_reading::specs::Reading::Members::class_head))]
fn class_head(
    alloc: Global,
    reader: &mut Reader<'_>,
    modifiers: Items<Modifier>,
) -> Result<TypeHead, UnitFault>
    ensures { Gives (spec.class_head modifiers reader.old) result reader.new }
{
    reader.expect(Mark::Class)?;
    let name = reader.identifier(alloc)?;
    let extends = superclass(alloc, reader)?;
    let implements = clause(alloc, reader, Mark::Implements)?;
    Ok(TypeHead::Class(ClassHead {
        modifiers,
        name,
        extends,
        implements,
    }))
}

/// The head of an interface, after its modifiers (JLS 9.1).
#[tactic(auto, unfolding(java_unit_reading::specs::Reading::Members::interface_head))]
fn interface_head(
    alloc: Global,
    reader: &mut Reader<'_>,
    modifiers: Items<Modifier>,
) -> Result<TypeHead, UnitFault>
    ensures { Gives (spec.interface_head modifiers reader.old) result reader.new }
{
    reader.expect(Mark::Interface)?;
    let name = reader.identifier(alloc)?;
    let extends = clause(alloc, reader, Mark::Extends)?;
    Ok(TypeHead::Interface(InterfaceHead {
        modifiers,
        name,
        extends,
    }))
}

/// The head of a class or an interface, after its modifiers.
fn any_head(
    alloc: Global,
    reader: &mut Reader<'_>,
    modifiers: Items<Modifier>,
) -> Result<TypeHead, UnitFault>
    ensures { Gives (choose (sees marks.Class) (spec.class_head modifiers) (spec.interface_head modifiers) reader.old) result reader.new }
{
    if reader.sees(Mark::Class) {
        class_head(alloc, reader, modifiers)
    } else {
        interface_head(alloc, reader, modifiers)
    }
}

/// The head of a type with a name, after its modifiers: in a block a class alone is declared (JLS 14.3).
fn named_head(
    alloc: Global,
    reader: &mut Reader<'_>,
    place: TypePlace,
    modifiers: Items<Modifier>,
) -> Result<TypeHead, UnitFault>
    ensures { Gives (spec.named_head place modifiers reader.old) result reader.new }
{
    match place {
        TypePlace::Local => class_head(alloc, reader, modifiers),
        TypePlace::TopLevel => any_head(alloc, reader, modifiers),
        TypePlace::Member => any_head(alloc, reader, modifiers),
        TypePlace::Anonymous => any_head(alloc, reader, modifiers),
    }
}

/// The head of a type with a name, with its modifiers.
fn modified_head(
    alloc: Global,
    reader: &mut Reader<'_>,
    place: TypePlace,
) -> Result<TypeHead, UnitFault>
    ensures { Gives (and_then (modifiers reader.old) (spec.named_head place)) result reader.new }
{
    let modifiers = modifiers(alloc, reader)?;
    named_head(alloc, reader, place, modifiers)
}

/// What stands before the body of a type in a place.
#[tactic(auto, using(crate::proofs::HeadLaws::head_of_named), unfolding(java_unit_reading::specs::Reading::Members::head))]
pub(crate) fn head(
    alloc: Global,
    reader: &mut Reader<'_>,
    place: TypePlace,
) -> Result<TypeHead, UnitFault>
    ensures { Gives (spec.head place reader.old) result reader.new }
{
    match place {
        TypePlace::Anonymous => Ok(TypeHead::Anonymous),
        _ => modified_head(alloc, reader, place),
    }
}

/// Whether a type is an interface.
pub(super) fn is_interface(head: &TypeHead) -> bool
    ensures { result ≡ spec.is_interface head.now }
{
    match head {
        TypeHead::Class(_) => false,
        TypeHead::Interface(_) => true,
        TypeHead::Anonymous => false,
    }
}

/// Whether a type is a class of this name, as its constructors are called (JLS 8.8).
pub(super) fn has_name(head: &TypeHead, name: &Ident) -> bool
    ensures { result ≡ spec.has_name head.now name.now }
{
    match head {
        TypeHead::Class(class) => name.name.as_str() == class.name.name.as_str(),
        TypeHead::Interface(_) => false,
        TypeHead::Anonymous => false,
    }
}
