//! The occurrences in declarations of types and of members.

ghost use Rattle.std.specs.Prelude.{◌≡◌, ◌++◌, Some, option_map, length, OnOk};
ghost use Rattle.java_scope.specs.Units.{context};
ghost use Rattle.std.specs.List.{list_any};
ghost use Rattle.java_nodes.specs.Seen.{seen_type};
ghost use Rattle.java_model.specs.Names.Environments.{Declared, declared_at};
ghost use Rattle.java_model.specs.Scopes.Contexts.{numbered_id};
ghost use Rattle.java_model.specs.Tree.Children.{Numbered, numbered};
ghost use Rattle.java_model.specs.Occurrences.Declarations.{default_super, implicit_super, in_supertype, is_constructor, names_in_declaration, names_in_member, spelled_superclass, super_at_last, type_declaration};
ghost use Rattle.java_model.specs.Scopes.Scoping.{within_body};

use crate::bindings::type_binding;
use crate::constructors::{implicit_in, implicit_super, spelled_superclass};
use crate::declared::{constructor_declaration, method_declaration};
use crate::making::mention;
use crate::name_parts::{last_of, spelled_name};
use crate::names::occurrences_in;
use crate::role::Role;
use java_nodes::{Node, NumberedType};
use java_scope::{Scope, UnitContext, opens};
use java_tree::{
    Binding, ClassHead, Constructor, Ident, JType, Member, OccKind, Occurrence, TypeDecl, TypeHead,
    TypeId,
};
use std::alloc::{AllocError, Global};

/// A declared constructor, and the one that it invokes without a word.
fn in_constructor(
    alloc: Global,
    unit: &UnitContext<'_>,
    scope: &Scope,
    number: u64,
    c: &Constructor,
    found: &mut Vec<Occurrence>,
) -> Result<(), AllocError>
    ensures { OnOk result (found.new.items ≡ found.old.items ++ names_in_member (context unit.now) scope.now number (Member.Constructor c.now)) }
{
    let parameters = c.parameters.len() as u64;
    found.push(constructor_declaration(alloc, unit, number, &c.name, parameters)?)?;
    implicit_in(alloc, unit, scope, number, c, found)
}

/// A member of the type of that number (JLS 8.1.5, 9.1.3).
pub(crate) fn names_in_member(
    alloc: Global,
    unit: &UnitContext<'_>,
    scope: &Scope,
    number: u64,
    member: &Member,
    found: &mut Vec<Occurrence>,
) -> Result<(), AllocError>
    ensures { OnOk result (found.new.items ≡ found.old.items ++ names_in_member (context unit.now) scope.now number member.now) }
{
    match member {
        Member::Method(m) => {
            let parameters = m.parameters.len() as u64;
            found.push(method_declaration(alloc, unit, number, &m.name, parameters)?)?;
            Ok(())
        }
        Member::Constructor(c) => in_constructor(alloc, unit, scope, number, c, found),
        Member::Empty => Ok(()),
        Member::Initializer(_, _) => Ok(()),
        Member::Type(_) => Ok(()),
        Member::Field(_) => Ok(()),
    }
}

/// The name of a type (JLS 8.1, 9.1).
fn type_declaration(
    alloc: Global,
    id: TypeId,
    head: &TypeHead,
    found: &mut Vec<Occurrence>,
) -> Result<(), AllocError>
    ensures { OnOk result (found.new.items ≡ found.old.items ++ type_declaration id head.now) }
{
    match head {
        TypeHead::Class(c) => {
            found.push(mention(alloc, OccKind::TypeDecl, &c.name, Binding::Class(id))?)?;
            Ok(())
        }
        TypeHead::Interface(i) => {
            found.push(mention(alloc, OccKind::TypeDecl, &i.name, Binding::Class(id))?)?;
            Ok(())
        }
        TypeHead::Anonymous => Ok(()),
    }
}

fn is_constructor(member: &Member) -> bool
    ensures { result ≡ is_constructor member.now }
{
    matches!(member, Member::Constructor(_))
}

/// Whether a class declares a constructor (JLS 8.8).
fn has_constructor(declared: &TypeDecl) -> bool
    ensures { result ≡ list_any is_constructor declared.now.members }
{
    declared
        .members
        .as_slice()
        .iter()
        .any(|m| is_constructor(m))
}

/// What the default constructor of a class invokes, from within its body (JLS 8.8.7).
#[tactic(auto, using(crate::proofs::Scopes::cut_back))]
fn in_default_constructor(
    alloc: Global,
    unit: &UnitContext<'_>,
    scope: &mut Scope,
    brace: u32,
    class: &ClassHead,
    head: &TypeHead,
    found: &mut Vec<Occurrence>,
) -> Result<(), AllocError>
    ensures same { OnOk result (scope.new ≡ scope.old) }
    ensures adds { OnOk result (found.new.items ≡ found.old.items ++ implicit_super (context unit.now) (scope.old ++ within_body (context unit.now) (numbered unit.now.types.types.now brace)) class.now.name.span (spelled_superclass head.now)) }
{
    let outside = scope.len();
    opens(alloc, unit, scope, Node::Body(brace))?;
    implicit_super(
        alloc,
        unit,
        scope,
        class.name.span,
        spelled_superclass(head),
        found,
    )?;
    scope.cut(outside);
    Ok(())
}

/// The default constructor of a class without constructors (JLS 8.8.7, 8.8.9).
fn default_super(
    alloc: Global,
    unit: &UnitContext<'_>,
    scope: &mut Scope,
    brace: u32,
    declared: &TypeDecl,
    found: &mut Vec<Occurrence>,
) -> Result<(), AllocError>
    ensures same { OnOk result (scope.new ≡ scope.old) }
    ensures adds { (t : Numbered) → numbered unit.now.types.types.now brace ≡ Some t → t.type ≡ declared.now → OnOk result (found.new.items ≡ found.old.items ++ default_super (context unit.now) scope.old t declared.now.head) }
{
    match &declared.head {
        TypeHead::Class(class) => {
            if has_constructor(declared) {
                return Ok(());
            }
            in_default_constructor(alloc, unit, scope, brace, class, &declared.head, found)
        }
        TypeHead::Interface(_) => Ok(()),
        TypeHead::Anonymous => Ok(()),
    }
}

/// A numbered type, by its name and what its default constructor invokes.
fn in_numbered(
    alloc: Global,
    unit: &UnitContext<'_>,
    scope: &mut Scope,
    brace: u32,
    t: NumberedType<'_>,
    found: &mut Vec<Occurrence>,
) -> Result<(), AllocError>
    ensures same { OnOk result (scope.new ≡ scope.old) }
    ensures adds { numbered unit.now.types.types.now brace ≡ Some (seen_type t.entry) → OnOk result (found.new.items ≡ found.old.items ++ names_in_declaration (context unit.now) scope.old (Some (seen_type t.entry))) }
{
    let id = unit.numbered_id(t.number)?;
    type_declaration(alloc, id, &t.declared.head, found)?;
    default_super(alloc, unit, scope, brace, t.declared, found)?;
    Ok(())
}

/// The declaration of the type with this `{`.
pub(crate) fn names_in_declaration(
    alloc: Global,
    unit: &UnitContext<'_>,
    scope: &mut Scope,
    brace: u32,
    found: &mut Vec<Occurrence>,
) -> Result<(), AllocError>
    ensures same { OnOk result (scope.new ≡ scope.old) }
    ensures adds { OnOk result (found.new.items ≡ found.old.items ++ names_in_declaration (context unit.now) scope.old (numbered unit.now.types.types.now brace)) }
{
    match unit.types.numbered(brace) {
        Some(t) => in_numbered(alloc, unit, scope, brace, t, found),
        None => Ok(()),
    }
}

/// The last identifier of a supertype's name.
#[tactic(auto, using(crate::proofs::Lasts::super_there, crate::proofs::Lasts::no_super))]
fn super_at_last(
    alloc: Global,
    name: &[Ident],
    t: &JType,
    found: &mut Vec<Occurrence>,
) -> Result<(), AllocError>
    ensures { OnOk result (found.new.items ≡ found.old.items ++ super_at_last name.now t.now) }
{
    match last_of(name) {
        Some(i) => {
            found.push(mention(alloc, OccKind::Super, i, type_binding(t))?)?;
            Ok(())
        }
        None => Ok(()),
    }
}

/// A name in the header of a declared type.
fn in_header(
    alloc: Global,
    unit: &UnitContext<'_>,
    id: TypeId,
    name: &[Ident],
    found: &mut Vec<Occurrence>,
) -> Result<(), AllocError>
    ensures { (d : Declared) → declared_at unit.now.env.now id ≡ Some d → OnOk result (found.new.items ≡ found.old.items ++ in_supertype (context unit.now) id name.now (Some d)) }
{
    let env = unit.env;
    let spelled = spelled_name(alloc, name)?;
    let kinds = env.header_kinds(alloc, id, spelled.as_slice())?;
    occurrences_in(alloc, Role::Type, name, kinds, found)?;
    let t = env.resolve_in_header(alloc, id, spelled.as_slice())?;
    super_at_last(alloc, name, &t, found)
}

/// A name after `extends` or `implements`, in the header of the type of that number (JLS 8.1.3, 8.1.4, 9.1.2).
pub(crate) fn in_supertype(
    alloc: Global,
    unit: &UnitContext<'_>,
    number: u64,
    name: &[Ident],
    found: &mut Vec<Occurrence>,
) -> Result<(), AllocError>
    ensures { OnOk result (found.new.items ≡ found.old.items ++ in_supertype (context unit.now) (numbered_id (context unit.now) number) name.now (declared_at unit.now.env.now (numbered_id (context unit.now) number))) }
{
    let id = unit.numbered_id(number)?;
    if unit.env.types().has(id) {
        in_header(alloc, unit, id, name, found)
    } else {
        Ok(())
    }
}
