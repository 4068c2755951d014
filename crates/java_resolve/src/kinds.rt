//! What the identifiers of a type name mean (JLS 6.5.4, 6.5.5), each a package, a type or nothing.

ghost use Rattle.std.specs.Prelude.{◌≡◌, ◌≤◌, [], ◌∷◌, ◌++◌, drop, length, map, take, IfOk};
ghost use Rattle.java_tree.specs.declared.types.NameKind.TheVariants as kinds;
ghost use Rattle.java_model.specs.Names.Lists.{Identifier, Identifiers, the_one};
ghost use Rattle.java_model.specs.Names.TypeNames.{Ask, next_types, resolve_by};
ghost use Rattle.java_model.specs.Scopes.NameKinds.{kind_or_nothing, package_kind, type_or_package};
ghost use Rattle.java_model.specs.Scopes.TypeNames.{as_package, in_package, kinds_by, kinds_from, members_of, with_next};
ghost use Rattle.java_model.specs.Grammar.Forms.{last_or};
ghost use Rattle.java_resolve.specs.Kinds.{is_package, kinds_in_import_by};
ghost use Rattle.java_resolve.specs.Occasions.{Occasion};
ghost use Rattle.java_resolve.specs.Resolving.{scope_of};

use crate::after::members_of_one;
use crate::asks::Asks;
use crate::fault::AskFault;
use crate::meaning::{class_of, type_in_package};
use crate::resolving::simple_type;
use crate::type_bound::TypeBound;
use java_tree::{Items, JType, NameKind, Outline, Text, TypeId};
use java_types::DeclaredTypes;
use std::alloc::{AllocError, Global};

/// A package where it is known, else nothing (JLS 7.1).
fn package_kind(env: &DeclaredTypes, name: &[Text]) -> NameKind
    ensures { result ≡ package_kind env.now name.now }
{
    if env.is_known_package(name) {
        NameKind::Package
    } else {
        NameKind::Nothing
    }
}

/// What a simple name means whose type name means this, where it is a type's or a package's (JLS 6.5.4.1).
fn type_or_package(env: &DeclaredTypes, of: &JType, name: &[Text]) -> NameKind
    ensures { (x : Identifier) → name.now ≡ x ∷ [] → result ≡ type_or_package env.now of.now x }
{
    match of {
        JType::Class(t) => NameKind::Class(*t),
        _ => package_kind(env, name),
    }
}

/// As many packages as there are kinds.
fn packages(alloc: Global, before: &[NameKind]) -> Result<Items<NameKind>, AllocError>
    ensures { IfOk result (λ ks. ks ≡ map (λ _. kinds.Package) before.now) }
{
    let mut kinds = Items::new(alloc);
    for _kind in before {
        kinds.push(NameKind::Package)?;
    }
    Ok(kinds)
}

fn is_package(kind: &NameKind) -> bool
    ensures { result ≡ is_package kind.now }
{
    matches!(kind, NameKind::Package)
}

/// Whether a name whose identifiers mean these means a package.
fn ends_in_package(before: &[NameKind]) -> bool
    ensures { result ≡ is_package (last_or kinds.Nothing before.now) }
{
    match before.last() {
        Some(kind) => is_package(kind),
        None => false,
    }
}

/// The identifiers of a package's name mean packages (JLS 6.5.3).
fn as_package(alloc: Global, before: Items<NameKind>) -> Result<Items<NameKind>, AllocError>
    ensures { IfOk result (λ ks. ks ≡ as_package before) }
{
    if ends_in_package(before.as_slice()) {
        let kinds = packages(alloc, before.as_slice())?;
        Ok(kinds)
    } else {
        Ok(before)
    }
}

/// A type where it is the only one, else nothing.
fn only_type(types: &[TypeId]) -> NameKind
    ensures { result ≡ kind_or_nothing kinds.Class (the_one types.now) }
{
    match types {
        [one] => NameKind::Class(*one),
        _ => NameKind::Nothing,
    }
}

/// What the identifiers of a name so far mean, and the types that they mean together.
#[derive(Drop)]
struct Meant {
    kinds: Items<NameKind>,
    types: Items<TypeId>,
}

/// What they mean with an identifier that is no member type: a type of the package before it, else a package
/// (JLS 6.5.4.2).
fn with_package(
    alloc: Global,
    env: &DeclaredTypes,
    before: Items<NameKind>,
    name: &[Text],
    found: &[TypeId],
) -> Result<Items<NameKind>, AllocError>
    ensures { IfOk result (λ ks. (spelled : Identifiers) (x : Identifier) → name.now ≡ spelled ++ x ∷ [] → ks ≡ with_next env.now before spelled x [] found.now) }
{
    match found {
        [t, ..] => {
            let mut kinds = packages(alloc, before.as_slice())?;
            kinds.push(NameKind::Class(*t))?;
            Ok(kinds)
        }
        [] => {
            let mut kinds = as_package(alloc, before)?;
            kinds.push(package_kind(env, name))?;
            Ok(kinds)
        }
    }
}

/// What they mean with the next identifier.
fn with_next<A: Asks>(
    alloc: Global,
    env: &DeclaredTypes,
    asker: &mut A,
    before: Meant,
    spelled: &[Text],
    word: &str,
    name: &[Text],
) -> Result<Meant, AskFault>
    requires { name.now ≡ spelled.now ++ word.now ∷ [] }
    ensures kinds { IfOk result (λ m. (a : Ask) → A.Fits asker.new a
        → m.kinds ≡ with_next env.now before.kinds spelled.now word.now (members_of a before.types word.now) (in_package env.now spelled.now word.now)) }
    ensures types { IfOk result (λ m. (a : Ask) → A.Fits asker.new a → m.types ≡ next_types env.now a before.types spelled.now word.now) }
    ensures grows { (a : Ask) → A.Fits asker.new a → A.Fits asker.old a }
    ensures keeps { (o : Occasion) → A.IsAt asker.old o → A.IsAt asker.new o }
{
    let members = members_of_one(alloc, asker, before.types.as_slice(), word)?;
    let mut kinds = before.kinds;
    if members.is_empty() {
        let types = type_in_package(alloc, env, spelled, word)?;
        let kinds = with_package(alloc, env, kinds, name, types.as_slice())?;
        return Ok(Meant { kinds, types });
    }
    kinds.push(only_type(members.as_slice()))?;
    Ok(Meant {
        kinds,
        types: members,
    })
}

/// What the identifiers of a name mean, given what those before one do.
fn kinds_from<A: Asks>(
    alloc: Global,
    env: &DeclaredTypes,
    asker: &mut A,
    before: Meant,
    name: &[Text],
    from: usize,
) -> Result<Items<NameKind>, AskFault>
    requires within { from ≤ length name.now }
    ensures value { IfOk result (λ ks. (a : Ask) → A.Fits asker.new a → ks ≡ kinds_from env.now a before.kinds before.types (take from name.now) (drop from name.now)) }
    ensures grows { (a : Ask) → A.Fits asker.new a → A.Fits asker.old a }
    ensures keeps { (o : Occasion) → A.IsAt asker.old o → A.IsAt asker.new o }
{
    let mut meant = before;
    for place in from..name.len() {
        let word = name[place].as_str();
        meant = with_next(
            alloc,
            env,
            asker,
            meant,
            &name[..place],
            word,
            &name[..place + 1],
        )?;
    }
    Ok(meant.kinds)
}

/// What each identifier of a type name means at a place of a document with these bounds around it, innermost first
/// (JLS 6.5.4, 6.5.5). It goes over the name once.
pub fn type_name_kinds<A: Asks>(
    alloc: Global,
    env: &DeclaredTypes,
    asker: &mut A,
    outline: &Outline,
    bounds: &[TypeBound],
    name: &[Text],
) -> Result<Items<NameKind>, AskFault>
    ensures value { IfOk result (λ ks. (a : Ask) → A.Fits asker.new a → ks ≡ kinds_by env.now a (resolve_by env.now a (scope_of outline.now bounds.now)) name.now) }
    ensures grows { (a : Ask) → A.Fits asker.new a → A.Fits asker.old a }
    ensures keeps { (o : Occasion) → A.IsAt asker.old o → A.IsAt asker.new o }
{
    let [first, ..] = name else {
        return Ok(Items::new(alloc));
    };
    let simple = simple_type(alloc, env, asker, outline, bounds, first.as_str())?;
    let mut kinds = Items::new(alloc);
    kinds.push(type_or_package(env, &simple, &name[..1]))?;
    let before = Meant {
        kinds,
        types: class_of(alloc, &simple)?,
    };
    kinds_from(alloc, env, asker, before, name, 1)
}

/// What each identifier of the name of an import means (JLS 7.5). The name before `.*` is a package's where it isn't a
/// type's (JLS 7.5.2).
pub fn kinds_in_import<A: Asks>(
    alloc: Global,
    env: &DeclaredTypes,
    asker: &mut A,
    star: bool,
    name: &[Text],
) -> Result<Items<NameKind>, AskFault>
    ensures value { IfOk result (λ ks. (a : Ask) → A.Fits asker.new a → ks ≡ kinds_in_import_by env.now a star name.now) }
    ensures grows { (a : Ask) → A.Fits asker.new a → A.Fits asker.old a }
    ensures keeps { (o : Occasion) → A.IsAt asker.old o → A.IsAt asker.new o }
{
    let before = Meant {
        kinds: Items::new(alloc),
        types: Items::new(alloc),
    };
    let kinds = kinds_from(alloc, env, asker, before, name, 0)?;
    if star {
        Ok(as_package(alloc, kinds)?)
    } else {
        Ok(kinds)
    }
}
