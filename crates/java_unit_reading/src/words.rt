//! Names, types and modifiers.

ghost use Rattle.std.specs.Prelude.{◌≡◌, is_some};
ghost use Rattle.java_unit_reading.specs.Gives.{Gives};
ghost use Rattle.java_unit_reading.specs.Reading.Steps.{many, list_from};
ghost use Rattle.java_model.specs.Grammar.Readings.{modifier_of};
ghost use Rattle.java_unit_reading.specs.Reading.Words as spec;

use crate::fault::UnitFault;
use crate::look::Look;
use crate::reader::Reader;
use java_expr_reading::names::only;
use java_expr_reading::{Shape, primitive_of};
use java_tree::{ElementType, Ident, Items, Mark, Modifier, Name, Primitive, TypeUse};
use std::alloc::Global;

/// Whether `.` and an identifier come next.
fn is_dotted(look: &Look<'_>) -> bool
    ensures { result ≡ spec.is_dotted look.now }
{
    look.sees(Mark::Dot) && look.next().is_word()
}

/// `.` and an identifier, if they come next.
#[tactic(auto, unfolding(crate::specs::Reading::Words::dotted))]
fn dotted(alloc: Global, reader: &mut Reader<'_>) -> Result<Option<Ident>, UnitFault>
    ensures { Gives (spec.dotted reader.old) result reader.new }
{
    if is_dotted(&reader.look()) {
        reader.take();
        Ok(Some(reader.identifier(alloc)?))
    } else {
        Ok(None)
    }
}

/// The identifiers that follow, each after a dot, behind those that were found.
fn dotted_idents(alloc: Global, reader: &mut Reader<'_>, mut found: Name) -> Result<Name, UnitFault>
    ensures { Gives (list_from spec.dotted found reader.old) result reader.new }
{
    for _turn in 0..reader.turns() {
        match dotted(alloc, reader)? {
            Some(ident) => found.push(ident)?,
            None => return Ok(found),
        }
    }
    Err(UnitFault::NoTree)
}

/// A name (JLS 6.2).
#[tactic(auto, unfolding(crate::specs::Reading::Words::name))]
pub fn name(alloc: Global, reader: &mut Reader<'_>) -> Result<Name, UnitFault>
    ensures { Gives (spec.name reader.old) result reader.new }
{
    let first = reader.identifier(alloc)?;
    let found = only(alloc, first)?;
    dotted_idents(alloc, reader, found)
}

/// A comma and a name, if a comma comes next.
#[tactic(auto, unfolding(crate::specs::Reading::Words::comma_name))]
fn comma_name(alloc: Global, reader: &mut Reader<'_>) -> Result<Option<Name>, UnitFault>
    ensures { Gives (spec.comma_name reader.old) result reader.new }
{
    if reader.sees(Mark::Comma) {
        reader.expect(Mark::Comma)?;
        Ok(Some(name(alloc, reader)?))
    } else {
        Ok(None)
    }
}

/// The names that follow, each after a comma, behind those that were found.
fn comma_names(
    alloc: Global,
    reader: &mut Reader<'_>,
    mut found: Items<Name>,
) -> Result<Items<Name>, UnitFault>
    ensures { Gives (list_from spec.comma_name found reader.old) result reader.new }
{
    for _turn in 0..reader.turns() {
        match comma_name(alloc, reader)? {
            Some(item) => found.push(item)?,
            None => return Ok(found),
        }
    }
    Err(UnitFault::NoTree)
}

/// Names, separated by commas.
#[tactic(auto, unfolding(crate::specs::Reading::Words::names))]
fn names(alloc: Global, reader: &mut Reader<'_>) -> Result<Items<Name>, UnitFault>
    ensures { Gives (spec.names reader.old) result reader.new }
{
    let first = name(alloc, reader)?;
    let found = only(alloc, first)?;
    comma_names(alloc, reader, found)
}

/// A word and the names that it introduces, none where it doesn't come next.
#[tactic(auto, unfolding(crate::specs::Reading::Words::clause))]
pub fn clause(alloc: Global, reader: &mut Reader<'_>, word: Mark) -> Result<Items<Name>, UnitFault>
    ensures { Gives (spec.clause word reader.old) result reader.new }
{
    if reader.sees(word) {
        reader.expect(word)?;
        names(alloc, reader)
    } else {
        Ok(Items::new(alloc))
    }
}

/// The number of `[]` that come next (JLS 10.1).
pub fn dims(reader: &mut Reader<'_>) -> Result<u32, UnitFault>
    ensures { Gives (spec.dims reader.old) result reader.new }
{
    let mut found = 0u32;
    for _turn in 0..reader.turns() {
        if !reader.sees(Mark::LeftBracket) {
            return Ok(found);
        }
        reader.expect(Mark::LeftBracket)?;
        reader.expect(Mark::RightBracket)?;
        match found.checked_add(1) {
            Some(more) => found = more,
            None => return Err(UnitFault::NoMemory),
        }
    }
    Err(UnitFault::NoTree)
}

/// The primitive type that comes next, if one does.
fn primitive_at(look: &Look<'_>) -> Option<Primitive>
    ensures { result ≡ spec.primitive_at look.now }
{
    match look.shape() {
        Shape::Mark(mark) => primitive_of(mark),
        _ => None,
    }
}

/// A primitive type or a name.
#[tactic(auto, unfolding(crate::specs::Reading::Words::element))]
fn element(alloc: Global, reader: &mut Reader<'_>) -> Result<ElementType, UnitFault>
    ensures { Gives (spec.element reader.old) result reader.new }
{
    match primitive_at(&reader.look()) {
        Some(primitive) => {
            reader.take();
            Ok(ElementType::Primitive(primitive))
        }
        None => Ok(ElementType::Named(name(alloc, reader)?)),
    }
}

/// A type (JLS 4.1).
#[tactic(auto, unfolding(crate::specs::Reading::Words::type_use))]
pub fn type_use(alloc: Global, reader: &mut Reader<'_>) -> Result<TypeUse, UnitFault>
    ensures { Gives (spec.type_use reader.old) result reader.new }
{
    let element = element(alloc, reader)?;
    let dims = dims(reader)?;
    Ok(TypeUse { element, dims })
}

/// The modifier that a mark is (JLS 8.1.1, 8.3.1, 8.4.3).
fn modifier_of(mark: Mark) -> Option<Modifier>
    ensures { result ≡ modifier_of mark }
{
    match mark {
        Mark::Abstract => Some(Modifier::Abstract),
        Mark::Final => Some(Modifier::Final),
        Mark::Native => Some(Modifier::Native),
        Mark::Private => Some(Modifier::Private),
        Mark::Protected => Some(Modifier::Protected),
        Mark::Public => Some(Modifier::Public),
        Mark::Static => Some(Modifier::Static),
        Mark::StrictFp => Some(Modifier::StrictFp),
        Mark::Synchronized => Some(Modifier::Synchronized),
        Mark::Transient => Some(Modifier::Transient),
        Mark::Volatile => Some(Modifier::Volatile),
        _ => None,
    }
}

/// The modifier that comes next, if one does.
fn modifier_at(look: &Look<'_>) -> Option<Modifier>
    ensures { result ≡ spec.modifier_at look.now }
{
    match look.shape() {
        Shape::Mark(mark) => modifier_of(mark),
        _ => None,
    }
}

#[tactic(auto, unfolding(crate::specs::Reading::Words::modifier))]
fn modifier(reader: &mut Reader<'_>) -> Result<Option<Modifier>, UnitFault>
    ensures { Gives (spec.modifier reader.old) result reader.new }
{
    match modifier_at(&reader.look()) {
        Some(modifier) => {
            reader.take();
            Ok(Some(modifier))
        }
        None => Ok(None),
    }
}

/// The modifiers that come next.
#[tactic(auto, unfolding(crate::specs::Reading::Words::modifiers))]
pub fn modifiers(alloc: Global, reader: &mut Reader<'_>) -> Result<Items<Modifier>, UnitFault>
    ensures { Gives (spec.modifiers reader.old) result reader.new }
{
    let mut found = Items::new(alloc);
    for _turn in 0..reader.turns() {
        match modifier(reader)? {
            Some(item) => found.push(item)?,
            None => return Ok(found),
        }
    }
    Err(UnitFault::NoTree)
}

/// Looks past the modifiers that come next.
#[tactic(auto, using(crate::proofs::Skips::modifiers_end, crate::proofs::Skips::modifiers_pass, crate::proofs::Skips::modifiers_none, crate::proofs::Skips::fewer))]
pub fn skip_modifiers(look: &mut Look<'_>)
    ensures { look.new ≡ spec.skip_modifiers look.old }
{
    for _turn in 0..look.len() {
        if modifier_at(look).is_none() {
            return;
        }
        look.pass();
    }
}

/// Looks past each `.` with an identifier that comes next.
#[tactic(auto, using(crate::proofs::Skips::dotted_end, crate::proofs::Skips::dotted_pass, crate::proofs::Skips::dotted_none, crate::proofs::Skips::fewer_twice))]
fn skip_dotted(look: &mut Look<'_>)
    ensures { look.new ≡ spec.skip_dotted look.old }
{
    for _turn in 0..look.len() {
        if !is_dotted(look) {
            return;
        }
        look.pass();
        look.pass();
    }
}

fn is_dim(look: &Look<'_>) -> bool
    ensures { result ≡ spec.is_dim look.now }
{
    look.sees(Mark::LeftBracket) && look.next().sees(Mark::RightBracket)
}

/// Looks past each `[]` that comes next.
#[tactic(auto, using(crate::proofs::Skips::dims_end, crate::proofs::Skips::dims_pass, crate::proofs::Skips::dims_none, crate::proofs::Skips::fewer_twice))]
fn skip_dims(look: &mut Look<'_>)
    ensures { look.new ≡ spec.skip_dims look.old }
{
    for _turn in 0..look.len() {
        if !is_dim(look) {
            return;
        }
        look.pass();
        look.pass();
    }
}

/// Whether a type and an identifier come next, as where a variable is declared (JLS 8.3, 14.4).
#[tactic(auto, unfolding(crate::specs::Reading::Words::declares))]
pub fn declares(mut look: Look<'_>) -> bool
    ensures { result ≡ spec.declares look.entry }
{
    if primitive_at(&look).is_some() {
        look.pass();
    } else if look.is_word() {
        look.pass();
        skip_dotted(&mut look);
    } else {
        return false;
    }
    skip_dims(&mut look);
    look.is_word()
}
