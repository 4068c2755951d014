//! The occurrences in a name: of the package before a type, of types, of fields, and of what is bound to nothing.

ghost use Rattle.std.specs.Prelude.{◌≡◌, ◌∷◌, ◌++◌, [], IfOk, OnOk};
ghost use Rattle.std.specs.List.{zip};
ghost use Rattle.java_model.specs.Occurrences.References.{last_kind, last_access, unbound_last, identifier_in, identifiers_in};
ghost use Rattle.java_model.specs.Occurrences.References.{with_last_kind, occurrences_in};
ghost use Rattle.java_bind.specs.Roles.{role_of};

use crate::making::{mention, occurrence};
use crate::role::Role;
use crate::runs::{package_in, package_run};
use java_tree::{Access, Binding, Ident, Items, NameKind, OccKind, Occurrence};
use std::alloc::{AllocError, Global};

/// What the last identifier of a name means there.
fn last_kind(role: Role, kind: NameKind) -> NameKind
    ensures { result ≡ last_kind (role_of role) kind }
{
    match (role, kind) {
        (Role::Type, NameKind::Class(t)) => NameKind::Class(t),
        (Role::Type, _) => NameKind::Nothing,
        (Role::Variable(_), NameKind::Local(t)) => NameKind::Local(t),
        (Role::Variable(_), NameKind::Field(f)) => NameKind::Field(f),
        (Role::Variable(_), _) => NameKind::Nothing,
        (_, kind) => kind,
    }
}

/// The access of the last identifier, where it is a field.
fn last_access(role: Role) -> Access
    ensures { result ≡ last_access (role_of role) }
{
    match role {
        Role::Variable(how) => how,
        _ => Access::Read,
    }
}

/// A last identifier that is bound to nothing.
fn unbound_last(alloc: Global, role: Role, i: &Ident) -> Result<Occurrence, AllocError>
    ensures { IfOk result (λ o. o ≡ unbound_last (role_of role) i.now) }
{
    let (kind, access) = match role {
        Role::Type => (OccKind::TypeRef, Access::NoAccess),
        Role::Variable(how) => (OccKind::FieldRef, how),
        _ => (OccKind::NameRef, Access::Read),
    };
    let found = occurrence(
        alloc,
        kind,
        i.span,
        i.name.as_str(),
        0,
        Binding::Nothing,
        access,
    )?;
    Ok(found)
}

/// An identifier by what it means. A local variable or a package has no occurrence of its own.
pub(crate) fn identifier_in(
    alloc: Global,
    role: Role,
    how: Access,
    i: &Ident,
    kind: &NameKind,
    found: &mut Vec<Occurrence>,
) -> Result<(), AllocError>
    ensures { OnOk result (found.new.items ≡ found.old.items ++ identifier_in how (unbound_last (role_of role) i.now) i.now kind.now) }
{
    match kind {
        NameKind::Class(t) => {
            let class = mention(alloc, OccKind::TypeRef, i, Binding::Class(*t))?;
            found.push(class)?;
            Ok(())
        }
        NameKind::Field(f) => {
            let field = occurrence(
                alloc,
                OccKind::FieldRef,
                i.span,
                i.name.as_str(),
                0,
                Binding::Field(*f),
                how,
            )?;
            found.push(field)?;
            Ok(())
        }
        NameKind::Nothing => {
            let unbound = unbound_last(alloc, role, i)?;
            found.push(unbound)?;
            Ok(())
        }
        NameKind::Local(_) | NameKind::Package => Ok(()),
    }
}

/// Each identifier of a name by what it means.
fn identifiers_in(
    alloc: Global,
    role: Role,
    name: &[Ident],
    kinds: &[NameKind],
    found: &mut Vec<Occurrence>,
) -> Result<(), AllocError>
    ensures { OnOk result (found.new.items ≡ found.old.items ++ identifiers_in (role_of role) (zip name.now kinds.now)) }
{
    let mut left = name;
    let mut kinds_left = kinds;
    while let [i, ..] = left {
        let [kind, ..] = kinds_left else {
            return Ok(());
        };
        if left.len() == 1 {
            identifier_in(alloc, role, last_access(role), i, kind, found)?;
            return Ok(());
        }
        if kinds_left.len() == 1 {
            identifier_in(alloc, role, last_access(role), i, kind, found)?;
            return Ok(());
        }
        identifier_in(alloc, Role::Qualifier, Access::Read, i, kind, found)?;
        left = &left[1..];
        kinds_left = &kinds_left[1..];
    }
    Ok(())
}

/// A last identifier that only means a package is bound to nothing where a type or a variable is meant.
#[tactic(auto, using(crate::proofs::Ends::replaced))]
fn with_last_kind(role: Role, mut kinds: Items<NameKind>) -> Result<Items<NameKind>, AllocError>
    ensures { IfOk result (λ ks. ks ≡ with_last_kind (role_of role) kinds) }
{
    match kinds.pop() {
        Some(last) => {
            kinds.push(last_kind(role, last))?;
            Ok(kinds)
        }
        None => Ok(kinds),
    }
}

/// The occurrences in a name, given what its identifiers mean.
pub(crate) fn occurrences_in(
    alloc: Global,
    role: Role,
    name: &[Ident],
    kinds: Items<NameKind>,
    found: &mut Vec<Occurrence>,
) -> Result<(), AllocError>
    ensures { OnOk result (found.new.items ≡ found.old.items ++ occurrences_in (role_of role) name.now kinds) }
{
    let marked = with_last_kind(role, kinds)?;
    let kinds = marked.as_slice();
    let at = package_run(name, kinds);
    package_in(alloc, role, &name[..at], &name[at..], &kinds[at..], found)?;
    identifiers_in(alloc, role, &name[at..], &kinds[at..], found)?;
    Ok(())
}
