//! The package that a name begins with.

ghost use Rattle.std.specs.Prelude.{◌≡◌, ◌≤◌, List, [], ◌∷◌, ◌++◌, OnOk, length};
ghost use Rattle.std.specs.List.{zip};
ghost use Rattle.java_tree.specs.declared.names.Ident.{Ident};
ghost use Rattle.java_tree.specs.declared.types.NameKind.{NameKind};
ghost use Rattle.java_model.specs.Occurrences.References.{package_run, counts_before, package_in};
ghost use Rattle.java_bind.specs.Roles.{role_of};
ghost use Rattle.java_bind.specs.Runs.{run_of};

use crate::making::package_named;
use crate::role::Role;
use java_tree::{Ident, NameKind, OccKind, Occurrence};
use std::alloc::{AllocError, Global};

/// How many identifiers from the left name a package.
pub(crate) fn package_run(name: &[Ident], kinds: &[NameKind]) -> usize
    ensures in_name { result ≤ length name.now }
    ensures in_kinds { result ≤ length kinds.now }
    ensures run { package_run [] (zip name.now kinds.now) ≡ run_of name.now kinds.now result }
{
    for (at, kind) in kinds.iter().enumerate() {
        if at == name.len() {
            return at;
        }
        let NameKind::Package = kind else {
            return at;
        };
    }
    kinds.len()
}

fn is_import(role: Role) -> bool
    ensures { result ≡ counts_before (role_of role) [] }
{
    matches!(role, Role::Import)
}

/// Whether a package counts before an identifier of this kind that stands last.
fn counts_before_last(role: Role, kind: &NameKind) -> bool
    ensures { (i : Ident) → result ≡ counts_before (role_of role) ((i, kind.now) ∷ []) }
{
    match kind {
        NameKind::Class(_) => true,
        NameKind::Nothing => matches!(role, Role::Type),
        _ => false,
    }
}

/// Whether a package counts before an identifier of this kind that others follow.
fn counts_before_more(role: Role, kind: &NameKind) -> bool
    ensures { (i : Ident) (x : Ident × NameKind) (more : List (Ident × NameKind)) → result ≡ counts_before (role_of role) ((i, kind.now) ∷ x ∷ more) }
{
    match role {
        Role::Type => matches!(kind, NameKind::Class(_)),
        Role::Import => matches!(kind, NameKind::Class(_)),
        Role::Qualifier => matches!(kind, NameKind::Class(_)),
        Role::Variable(_) => matches!(kind, NameKind::Class(_)),
    }
}

/// Whether a package counts before a name: before a type, before a last identifier that isn't declared as a type, and
/// before `.*` (JLS 6.5.3, 7.5.2).
fn counts_before(role: Role, name: &[Ident], kinds: &[NameKind]) -> bool
    ensures { result ≡ counts_before (role_of role) (zip name.now kinds.now) }
{
    let [_first, ..] = name else {
        return is_import(role);
    };
    let [kind, ..] = kinds else {
        return is_import(role);
    };
    if name.len() == 1 {
        return counts_before_last(role, kind);
    }
    if kinds.len() == 1 {
        return counts_before_last(role, kind);
    }
    counts_before_more(role, kind)
}

/// The package before what a name means, where it counts.
pub(crate) fn package_in(
    alloc: Global,
    role: Role,
    run: &[Ident],
    rest: &[Ident],
    kinds: &[NameKind],
    found: &mut Vec<Occurrence>,
) -> Result<(), AllocError>
    ensures { OnOk result (found.new.items ≡ found.old.items ++ package_in (role_of role) run.now (zip rest.now kinds.now) (counts_before (role_of role) (zip rest.now kinds.now))) }
{
    if run.is_empty() {
        return Ok(());
    }
    if counts_before(role, rest, kinds) {
        found.push(package_named(alloc, OccKind::PackageRef, run)?)?;
    }
    Ok(())
}
