//! Units (JLS 7.3): what stands outside types.

ghost use Rattle.std.specs.Prelude.{◌≡◌};
ghost use Rattle.java_unit_reading.specs.Gives.{Gives};
ghost use Rattle.java_parse_unit.specs.Ends.{GivesTree, unit_at};
ghost use Rattle.java_unit_reading.specs.ReadingLaws.{read_unit, tree_in};
ghost use Rattle.java_unit_reading.specs.Reading.Expressions.{exprs};
ghost use Rattle.java_unit_reading.specs.Reading.Steps.{list};
ghost use Rattle.java_unit_reading.specs.Reading.Units as spec;

use crate::knot::type_decl;
use java_expr_reading::Marked;
use java_tree::{Import, Items, MAX_DEPTH, Mark, Name, TopLevel, TypePlace, Unit};
use java_unit_reading::words::name;
use java_unit_reading::{Reader, UnitFault};
use std::alloc::Global;

/// The package clause (JLS 7.4).
#[tactic(auto, unfolding(java_unit_reading::specs::Reading::Units::package_name))]
fn package_name(alloc: Global, reader: &mut Reader<'_>) -> Result<Name, UnitFault>
    ensures { Gives (spec.package_name reader.old) result reader.new }
{
    reader.expect(Mark::Package)?;
    let name = name(alloc, reader)?;
    reader.expect(Mark::Semicolon)?;
    Ok(name)
}

/// The package clause, if one comes next.
#[tactic(auto, unfolding(java_unit_reading::specs::Reading::Units::any_package))]
fn any_package(alloc: Global, reader: &mut Reader<'_>) -> Result<Option<Name>, UnitFault>
    ensures { Gives (spec.any_package reader.old) result reader.new }
{
    if reader.sees(Mark::Package) {
        Ok(Some(package_name(alloc, reader)?))
    } else {
        Ok(None)
    }
}

/// Whether `.*` comes next, which it passes.
#[tactic(auto, unfolding(java_unit_reading::specs::Reading::Units::star))]
fn star(reader: &mut Reader<'_>) -> Result<bool, UnitFault>
    ensures { Gives (spec.star reader.old) result reader.new }
{
    if reader.sees(Mark::Dot) {
        reader.expect(Mark::Dot)?;
        reader.expect(Mark::Star)?;
        Ok(true)
    } else {
        Ok(false)
    }
}

/// An import (JLS 7.5).
#[tactic(auto, unfolding(java_unit_reading::specs::Reading::Units::import_of))]
fn import_of(alloc: Global, reader: &mut Reader<'_>) -> Result<Import, UnitFault>
    ensures { Gives (spec.import_of reader.old) result reader.new }
{
    reader.expect(Mark::Import)?;
    let name = name(alloc, reader)?;
    let star = star(reader)?;
    reader.expect(Mark::Semicolon)?;
    Ok(Import { name, star })
}

/// An import, if one comes next.
#[tactic(auto, unfolding(java_unit_reading::specs::Reading::Units::any_import))]
fn any_import(alloc: Global, reader: &mut Reader<'_>) -> Result<Option<Import>, UnitFault>
    ensures { Gives (spec.any_import reader.old) result reader.new }
{
    if reader.sees(Mark::Import) {
        Ok(Some(import_of(alloc, reader)?))
    } else {
        Ok(None)
    }
}

/// The imports that come next.
fn imports(alloc: Global, reader: &mut Reader<'_>) -> Result<Items<Import>, UnitFault>
    ensures { Gives (list spec.any_import reader.old) result reader.new }
{
    let mut found = Items::new(alloc);
    for _turn in 0..reader.turns() {
        match any_import(alloc, reader)? {
            Some(item) => found.push(item)?,
            None => return Ok(found),
        }
    }
    Err(UnitFault::NoTree)
}

/// A top-level type (JLS 7.6).
#[tactic(auto, unfolding(java_unit_reading::specs::Reading::Units::top_type))]
fn top_type(alloc: Global, reader: &mut Reader<'_>) -> Result<TopLevel, UnitFault>
    ensures { Gives (spec.top_type exprs reader.old) result reader.new }
{
    let brace = type_decl(
        alloc,
        reader,
        MAX_DEPTH,
        TypePlace::TopLevel,
        None,
        MAX_DEPTH,
    )?;
    Ok(TopLevel::Type(brace))
}

/// A top-level type or a `;` (JLS 7.6).
#[tactic(auto, unfolding(java_unit_reading::specs::Reading::Units::top))]
fn top(alloc: Global, reader: &mut Reader<'_>) -> Result<TopLevel, UnitFault>
    ensures { Gives (spec.top exprs reader.old) result reader.new }
{
    if reader.sees(Mark::Semicolon) {
        reader.expect(Mark::Semicolon)?;
        Ok(TopLevel::Empty)
    } else {
        top_type(alloc, reader)
    }
}

/// Whether no token is left.
fn is_end(reader: &Reader<'_>) -> bool
    ensures { result ≡ spec.is_end reader.now.tokens }
{
    reader.look().len() == 0
}

/// What is declared next, if a token is left.
#[tactic(auto, unfolding(java_unit_reading::specs::Reading::Units::any_top))]
fn any_top(alloc: Global, reader: &mut Reader<'_>) -> Result<Option<TopLevel>, UnitFault>
    ensures { Gives (spec.any_top exprs reader.old) result reader.new }
{
    if is_end(reader) {
        Ok(None)
    } else {
        Ok(Some(top(alloc, reader)?))
    }
}

/// What is declared, up to the last token.
fn tops(alloc: Global, reader: &mut Reader<'_>) -> Result<Items<TopLevel>, UnitFault>
    ensures { Gives (list (spec.any_top exprs) reader.old) result reader.new }
{
    let mut found = Items::new(alloc);
    for _turn in 0..reader.turns() {
        match any_top(alloc, reader)? {
            Some(item) => found.push(item)?,
            None => return Ok(found),
        }
    }
    Err(UnitFault::NoTree)
}

fn unit_of(
    clause: Option<Name>,
    imports: Items<Import>,
    declarations: Items<TopLevel>,
    reader: Reader<'_>,
) -> Result<Unit, UnitFault>
    ensures { GivesTree (unit_at clause imports declarations reader.entry) result }
{
    if is_end(&reader) {
        let types = reader.into_types();
        Ok(Unit {
            package: clause,
            imports,
            declarations,
            types,
        })
    } else {
        Err(UnitFault::NoTree)
    }
}

/// The unit that a reader stands before (JLS 7.3).
#[tactic(auto, unfolding(java_unit_reading::specs::Reading::Units::unit))]
fn unit(alloc: Global, reader: Reader<'_>) -> Result<Unit, UnitFault>
    ensures { GivesTree (tree_in (spec.unit exprs reader.entry)) result }
{
    let mut reader = reader;
    let clause = any_package(alloc, &mut reader)?;
    let imports = imports(alloc, &mut reader)?;
    let declarations = tops(alloc, &mut reader)?;
    unit_of(clause, imports, declarations, reader)
}

/// The unit of all tokens (JLS 7.3).
#[tactic(auto, unfolding(java_unit_reading::specs::ReadingLaws::read_unit))]
pub(crate) fn read_unit(alloc: Global, marked: &Marked<'_>) -> Result<Unit, UnitFault>
    ensures { GivesTree (read_unit marked.now) result }
{
    unit(alloc, Reader::at(marked, 0, Items::new(alloc)))
}
