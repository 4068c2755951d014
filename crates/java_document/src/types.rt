//! The outlines of types, each before those in it.

ghost use Rattle.std.specs.Prelude.{◌≡◌, IfOk, OnOk};
ghost use Rattle.java_model.specs.Grammar.Braces.{braces_of};
ghost use Rattle.java_model.specs.Grammar.YieldUnit.{scope_in};
ghost use Rattle.java_model.specs.Outlines.{is_local};
ghost use Rattle.java_document.specs.Outlining.{Rises, outlined, AreHolesIn, OutlinesOne, OutlinesAll};

use crate::head::Head;
use crate::heads::head_of;
use crate::hole::FoundHole;
use crate::in_members::in_members;
use crate::members::{constructors, fields, methods};
use crate::numbers::local_numbers;
use crate::scope::Scope;
use java_tree::{Items, OutlineType, TypeDecl, TypePlace};
use std::alloc::{AllocError, Global};

fn is_local(place: TypePlace) -> bool
    ensures { result ≡ is_local place }
{
    matches!(place, TypePlace::Local)
}

/// The outline of a type in a hole.
fn outlined(
    alloc: Global,
    braces: &[u32],
    found: &FoundHole,
    declared: &TypeDecl,
) -> Result<OutlineType, AllocError>
    requires { Rises braces.now }
    ensures { IfOk result (λ o. o ≡ outlined braces.now found.now declared.now) }
{
    let head = head_of(alloc, found, &declared.head)?;
    let locals = local_numbers(alloc, braces, found.place, found.locals.as_slice())?;
    let fields = fields(alloc, declared.members.as_slice())?;
    let methods = methods(alloc, declared.members.as_slice())?;
    let constructors = constructors(alloc, declared.members.as_slice())?;
    let Head {
        kind,
        name,
        span,
        modifiers,
        extends,
        implements,
    } = head;
    Ok(OutlineType {
        kind,
        local: is_local(found.place),
        name,
        span,
        modifiers,
        parent: declared.parent,
        locals,
        extends,
        implements,
        fields,
        methods,
        constructors,
    })
}

/// The local classes in scope in the body of a type: a local class itself too (JLS 14.3).
fn scope_in(
    alloc: Global,
    place: TypePlace,
    brace: u32,
    locals: Items<u32>,
) -> Result<Items<u32>, AllocError>
    ensures { IfOk result (λ ls. ls ≡ scope_in place brace locals) }
{
    match place {
        TypePlace::Local => {
            let mut inner = Items::new(alloc);
            inner.push(brace)?;
            inner.append(locals)?;
            Ok(inner)
        }
        TypePlace::Anonymous => Ok(locals),
        TypePlace::TopLevel => Ok(locals),
        TypePlace::Member => Ok(locals),
    }
}

/// The types that are declared in the members of a type.
#[tactic(auto, using(crate::proofs::Outlining::holes_found))]
fn holes_in(
    alloc: Global,
    found: FoundHole,
    declared: &TypeDecl,
) -> Result<Vec<FoundHole>, AllocError>
    ensures { IfOk result (λ fs. AreHolesIn found declared.now fs.items) }
{
    let FoundHole {
        brace,
        place,
        created: _,
        span: _,
        locals,
    } = found;
    let inner = scope_in(alloc, place, brace, locals)?;
    let mut scope = Scope {
        alloc,
        base: inner.as_slice(),
        own: Vec::new(alloc),
    };
    let mut holes = Vec::new(alloc);
    in_members(declared.members.as_slice(), &mut scope, &mut holes)?;
    Ok(holes)
}

/// The outline of a type that was found, and those in it. The types begin with its own, and no more than so many
/// stand inside one another.
#[cycle(types)]
#[tactic(auto, using(crate::proofs::Outlining::one_none, crate::proofs::Outlining::one_past, crate::proofs::Outlining::one_more_type))]
fn in_type(
    alloc: Global,
    types: &Items<TypeDecl>,
    braces: &[u32],
    found: FoundHole,
    left: usize,
    outlines: &mut Vec<OutlineType>,
) -> Result<(), AllocError>
    requires table { braces.now ≡ braces_of types.now }
    requires order { Rises braces.now }
    ensures { OnOk result (OutlinesOne types.now left found outlines.old.items outlines.new.items) }
{
    if left == 0 {
        return Ok(());
    }
    let Some(declared) = types.get(outlines.len()) else {
        return Ok(());
    };
    outlines.push(outlined(alloc, braces, &found, declared)?)?;
    let holes = holes_in(alloc, found, declared)?;
    in_holes(alloc, types, braces, holes, left - 1, outlines)
}

/// The same of each that was found.
#[cycle(types)]
#[tactic(auto, using(crate::proofs::Outlining::all_none, crate::proofs::Outlining::all_more))]
pub(crate) fn in_holes(
    alloc: Global,
    types: &Items<TypeDecl>,
    braces: &[u32],
    holes: Vec<FoundHole>,
    left: usize,
    outlines: &mut Vec<OutlineType>,
) -> Result<(), AllocError>
    requires table { braces.now ≡ braces_of types.now }
    requires order { Rises braces.now }
    ensures { OnOk result (OutlinesAll types.now left holes.items outlines.old.items outlines.new.items) }
{
    for hole in holes {
        in_type(alloc, types, braces, hole, left, outlines)?;
    }
    Ok(())
}
