//! Answers about member types, and the supertypes in headers, from what is kept so far.

ghost use Rattle.std.specs.Prelude.{◌≡◌, [], Some, IfOk};
ghost use Rattle.java_model.specs.Names.Environments.{declared_at};
ghost use Rattle.java_model.specs.Names.Supertypes.{declared_types, header_supers, resolve_in_header};
ghost use Rattle.java_model.specs.Scopes.TypeNames.{header_kinds};
ghost use Rattle.java_supers.specs.Keeping.{AreKept, IsAnswer};

use crate::inherited::inherited_asking;
use crate::looking::Looking;
use crate::marks::has_mark;
use crate::memory::{Answer, Memory};
use crate::supers::supers_asking;
use java_resolve::{AskFault, header_bounds, only_if, resolve, type_name_kinds};
use java_tree::{Items, JType, NameKind, Text, TypeId};
use java_types::{DeclaredType, DeclaredTypes};
use std::alloc::Global;

/// The member types that a type inherits, where it is marked as in hand.
fn inherited_answer(
    alloc: Global,
    env: &DeclaredTypes,
    memory: &Memory,
    marks: &[bool],
    of: TypeId,
    name: &str,
) -> Result<Answer, AskFault>
    requires kept { AreKept env.now memory.now.kept }
    requires none_declared { declared_types env.now of name.now ≡ [] }
    ensures { IfOk result (λ a. IsAnswer env.now of name.now a.found a.free a.blocked) }
{
    if !has_mark(marks, of) {
        return Err(AskFault::NoMemory);
    }
    let mut looking = Looking::new(alloc, env, memory, marks, of);
    let found = inherited_asking(alloc, env, &mut looking, of, name)?;
    let (mut free, blocked) = looking.into_notes();
    free.push(of)?;
    Ok(Answer {
        found,
        free,
        blocked,
    })
}

/// The member types of a type, where it is marked as in hand.
pub(crate) fn answer(
    alloc: Global,
    env: &DeclaredTypes,
    memory: &Memory,
    marks: &[bool],
    of: TypeId,
    name: &str,
) -> Result<Answer, AskFault>
    requires { AreKept env.now memory.now.kept }
    ensures { IfOk result (λ a. IsAnswer env.now of name.now a.found a.free a.blocked) }
{
    let Some(member) = env.declared_member(of, name) else {
        return inherited_answer(alloc, env, memory, marks, of, name);
    };
    Ok(Answer {
        found: only_if(alloc, true, member)?,
        free: Items::new(alloc),
        blocked: Items::new(alloc),
    })
}

/// The supertypes that the header of a type spells, where it is marked as in hand.
pub(crate) fn header(
    alloc: Global,
    env: &DeclaredTypes,
    memory: &Memory,
    marks: &[bool],
    t: TypeId,
) -> Result<Items<JType>, AskFault>
    requires { AreKept env.now memory.now.kept }
    ensures { IfOk result (λ ts. ts ≡ header_supers env.now t) }
{
    if !has_mark(marks, t) {
        return Err(AskFault::NoMemory);
    }
    let mut looking = Looking::new(alloc, env, memory, marks, t);
    let types = supers_asking(alloc, env, &mut looking, t)?;
    let (_, blocked) = looking.into_notes();
    if !blocked.is_empty() {
        return Err(AskFault::NoMemory);
    }
    Ok(types)
}

/// What a name in the header of a type means, where the type is marked as in hand.
pub(crate) fn resolve_in_header(
    alloc: Global,
    env: &DeclaredTypes,
    memory: &Memory,
    marks: &[bool],
    d: &DeclaredType<'_>,
    t: TypeId,
    name: &[Text],
) -> Result<JType, AskFault>
    requires kept { AreKept env.now memory.now.kept }
    requires declared { declared_at env.now t ≡ Some d.now }
    ensures { IfOk result (λ of. of ≡ resolve_in_header env.now d.now t name.now) }
{
    if !has_mark(marks, t) {
        return Err(AskFault::NoMemory);
    }
    let bounds = header_bounds(alloc, d)?;
    let mut looking = Looking::new(alloc, env, memory, marks, t);
    let of = resolve(
        alloc,
        env,
        &mut looking,
        d.outline(),
        bounds.as_slice(),
        name,
    )?;
    let (_, blocked) = looking.into_notes();
    if !blocked.is_empty() {
        return Err(AskFault::NoMemory);
    }
    Ok(of)
}

/// What the identifiers of a name in the header of a type mean, where the type is marked as in hand.
pub(crate) fn header_kinds(
    alloc: Global,
    env: &DeclaredTypes,
    memory: &Memory,
    marks: &[bool],
    d: &DeclaredType<'_>,
    t: TypeId,
    name: &[Text],
) -> Result<Items<NameKind>, AskFault>
    requires kept { AreKept env.now memory.now.kept }
    requires declared { declared_at env.now t ≡ Some d.now }
    ensures { IfOk result (λ ks. ks ≡ header_kinds env.now d.now t name.now) }
{
    if !has_mark(marks, t) {
        return Err(AskFault::NoMemory);
    }
    let bounds = header_bounds(alloc, d)?;
    let mut looking = Looking::new(alloc, env, memory, marks, t);
    let outline = d.outline();
    let kinds = type_name_kinds(alloc, env, &mut looking, outline, bounds.as_slice(), name)?;
    let (_, blocked) = looking.into_notes();
    if !blocked.is_empty() {
        return Err(AskFault::NoMemory);
    }
    Ok(kinds)
}
