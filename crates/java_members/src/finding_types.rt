//! Member types by their names (JLS 8.5, 9.5).

ghost use Rattle.std.specs.Prelude.{◌≡◌, [], map, IfOk, MatchOption};
ghost use Rattle.std.specs.List.{filter, flat_map};
ghost use Rattle.java_model.specs.Names.MemberTypes.{member_types};
ghost use Rattle.java_model.specs.Names.Supertypes.{declared_types, inherits_type, known_supers};
ghost use Rattle.java_members.specs.Inheriting.{type_of, types_had};
ghost use Rattle.java_members.specs.Members.{Same};

use crate::inherits::Inherits;
use crate::member::Member;
use crate::supertypes::supers;
use crate::walk::members_by;
use java_model::{sub_is_transitive, supertypes_have_no_cycle};
use java_supers::{Hierarchy, inherits_type};
use java_tree::{Items, JType, TypeId};
use java_types::DeclaredTypes;
use std::alloc::{AllocError, Global};
use std::marker::Model;

/// What tells the member types of a name.
#[derive(Drop)]
struct TypesNamed<'a> {
    hierarchy: &'a Hierarchy,
    called: &'a str,
}

impl<'a> Model for TypesNamed<'a> {
    ghost use Rattle.java_members.specs.Inheriting.{Sought};

    ghost Value = { Sought };

    ghost view = { λ r. record { env = r.hierarchy.now; name = r.called.now } };
}

fn as_types(alloc: Global, members: &[Member]) -> Result<Items<TypeId>, AllocError>
    ensures { IfOk result (λ ts. ts ≡ map type_of members.now) }
{
    let mut types = Items::new(alloc);
    for m in members {
        types.push(TypeId(m.of))?;
    }
    Ok(types)
}

/// The member types that a type inherits, of these.
fn those_inherited(
    alloc: Global,
    env: &DeclaredTypes,
    t: TypeId,
    members: &[Member],
) -> Result<Items<Member>, AllocError>
    ensures { IfOk result (λ ms. ms ≡ filter (λ m. inherits_type env.now t (type_of m)) members.now) }
{
    let mut inherited = Items::new(alloc);
    for m in members {
        if inherits_type(env, t, TypeId(m.of)) {
            inherited.push(*m)?;
        }
    }
    Ok(inherited)
}

/// The member types of a name that a type has which declares none.
fn inherited_types(
    alloc: Global,
    env: &DeclaredTypes,
    t: TypeId,
    name: &str,
    inherited: &[Member],
) -> Result<Items<Member>, AllocError>
    requires none { declared_types env.now t name.now ≡ [] }
    requires inherited { Same inherited.now (flat_map (types_had env.now name.now) (known_supers env.now t)) }
    ensures { IfOk result (λ ms. Same ms (types_had env.now name.now t)) }
{
    supertypes_have_no_cycle();
    sub_is_transitive();
    let kept = those_inherited(alloc, env, t, inherited)?;
    Ok(kept)
}

/// The member type of a name that a type declares, if it declares one.
fn own_types(
    alloc: Global,
    env: &DeclaredTypes,
    t: TypeId,
    name: &str,
) -> Result<Option<Items<Member>>, AllocError>
    ensures { IfOk result (λ own. MatchOption own (declared_types env.now t name.now ≡ []) (λ ms. Same ms (types_had env.now name.now t))) }
{
    supertypes_have_no_cycle();
    sub_is_transitive();
    let Some(own) = env.declared_member(t, name) else {
        return Ok(None);
    };
    let mut members = Items::new(alloc);
    members.push(Member {
        of: own.0,
        place: 0,
    })?;
    Ok(Some(members))
}

impl<'a> Inherits for TypesNamed<'a> {
    ghost use Rattle.std.specs.Prelude.{◌≡◌, []};
    ghost use Rattle.java_model.specs.Names.Supertypes.{declared_types};
    ghost use Rattle.java_members.specs.Inheriting.{types_had};

    ghost env = { λ r. r.env };

    ghost all = { λ r. types_had r.env r.name };

    ghost Lacks = { λ r t. declared_types r.env t r.name ≡ [] };

    fn supers(&self, t: TypeId) -> &[JType] {
        supers(self.hierarchy, t)
    }

    fn own(&self, alloc: Global, t: TypeId) -> Result<Option<Items<Member>>, AllocError> {
        own_types(alloc, self.hierarchy.types(), t, self.called)
    }

    fn inherit(
        &self,
        alloc: Global,
        t: TypeId,
        inherited: &[Member],
    ) -> Result<Items<Member>, AllocError> {
        inherited_types(alloc, self.hierarchy.types(), t, self.called, inherited)
    }
}

/// The member types of a name that a type has, in order of declaration (JLS 8.5, 9.5). No supertype is asked twice.
pub fn member_types(
    alloc: Global,
    env: &Hierarchy,
    t: TypeId,
    name: &str,
) -> Result<Items<TypeId>, AllocError>
    ensures { IfOk result (λ ts. ts ≡ member_types env.now t name.now) }
{
    let named = TypesNamed {
        hierarchy: env,
        called: name,
    };
    let members = members_by(alloc, &named, t)?;
    let types = as_types(alloc, members.as_slice())?;
    Ok(types)
}
