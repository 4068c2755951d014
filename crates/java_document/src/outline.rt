ghost use Rattle.std.specs.Prelude.{◌≡◌, map, IfOk};
ghost use Rattle.java_model.specs.Grammar.Runs.{holes_of};
ghost use Rattle.java_model.specs.Grammar.YieldUnit.{yield_unit};
ghost use Rattle.java_model.specs.Outlines.{AreOutlineTypes, IsOutline, import_name, package_name};
ghost use Rattle.java_document.specs.Holes.{kept};
ghost use Rattle.java_document.specs.Readings.{IsUnitOfAText};

use crate::finding::spelled_name;
use crate::hole::FoundHole;
use crate::in_members::in_tops;
use crate::numbers::braces_of;
use crate::scope::Scope;
use crate::types::in_holes;
use java_tree::{Import, ImportName, Items, Name, Outline, OutlineType, Text, Unit};
use std::alloc::{AllocError, Global};

/// The identifiers of the package clause (JLS 7.4).
fn package_name(alloc: Global, clause: &Option<Name>) -> Result<Items<Text>, AllocError>
    ensures { IfOk result (λ n. n ≡ package_name clause.now) }
{
    match clause {
        Some(name) => spelled_name(alloc, name.as_slice()),
        None => Ok(Items::new(alloc)),
    }
}

fn import_name(alloc: Global, import: &Import) -> Result<ImportName, AllocError>
    ensures { IfOk result (λ i. i ≡ import_name import.now) }
{
    let name = spelled_name(alloc, import.name.as_slice())?;
    Ok(ImportName {
        name,
        star: import.star,
    })
}

fn import_names(alloc: Global, imports: &[Import]) -> Result<Items<ImportName>, AllocError>
    ensures { IfOk result (λ is. is ≡ map import_name imports.now) }
{
    let mut names = Items::new(alloc);
    for import in imports {
        names.push(import_name(alloc, import)?)?;
    }
    Ok(names)
}

/// The types that a unit declares itself.
fn tops_of(alloc: Global, unit: &Unit) -> Result<Vec<FoundHole>, AllocError>
    ensures { IfOk result (λ fs. fs.items ≡ map kept (holes_of (yield_unit unit.now))) }
{
    let scope = Scope {
        alloc,
        base: &[],
        own: Vec::new(alloc),
    };
    let mut holes = Vec::new(alloc);
    in_tops(unit.declarations.as_slice(), &scope, &mut holes)?;
    Ok(holes)
}

/// The outlines of the types of a unit, in their order.
#[tactic(auto, using(crate::proofs::Units::outlines_are, crate::proofs::Rising::unit_rises))]
fn types_of(alloc: Global, unit: &Unit) -> Result<Items<OutlineType>, AllocError>
    requires { IsUnitOfAText unit.now }
    ensures { IfOk result (AreOutlineTypes unit.now unit.now.types) }
{
    let braces = braces_of(alloc, unit.types.as_slice())?;
    let holes = tops_of(alloc, unit)?;
    let mut outlines = Vec::new(alloc);
    in_holes(
        alloc,
        &unit.types,
        braces.as_slice(),
        holes,
        unit.types.len(),
        &mut outlines,
    )?;
    Ok(Items::from_vec(outlines))
}

/// The outline of the unit of a text: one pass over the tree, and a binary search for each local class in scope at
/// the header of a local or anonymous class.
pub fn outline_of(alloc: Global, unit: &Unit) -> Result<Outline, AllocError>
    requires { IsUnitOfAText unit.now }
    ensures { IfOk result (IsOutline unit.now) }
{
    let package = package_name(alloc, &unit.package)?;
    let imports = import_names(alloc, unit.imports.as_slice())?;
    let types = types_of(alloc, unit)?;
    Ok(Outline {
        package,
        imports,
        types,
    })
}
