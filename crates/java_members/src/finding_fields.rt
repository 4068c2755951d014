//! Fields by their names (JLS 8.3, 9.3).

ghost use Rattle.std.specs.Prelude.{◌≡◌, [], map, IfOk, MatchOption};
ghost use Rattle.std.specs.List.{filter, flat_map};
ghost use Rattle.std.specs.Option.{option_copied};
ghost use Rattle.java_model.specs.Names.Fields.{declared_fields, field_at, field_named, fields, inherits_field};
ghost use Rattle.java_model.specs.Names.Supertypes.{known_supers};
ghost use Rattle.java_members.specs.FieldsCalled.{fields_called};
ghost use Rattle.java_members.specs.Inheriting.{field_of, fields_had, of_field};
ghost use Rattle.java_members.specs.Members.{Same};

use crate::inherits::Inherits;
use crate::member::Member;
use crate::supertypes::supers;
use crate::walk::members_by;
use java_model::{sub_is_transitive, supertypes_have_no_cycle};
use java_supers::{Hierarchy, passes_on};
use java_tree::{FieldId, Items, JType, OutlineField, TypeId};
use java_types::DeclaredTypes;
use std::alloc::{AllocError, Global};
use std::marker::Model;

/// What tells the fields of a name.
#[derive(Drop)]
struct FieldsNamed<'a> {
    hierarchy: &'a Hierarchy,
    called: &'a str,
}

impl<'a> Model for FieldsNamed<'a> {
    ghost use Rattle.java_members.specs.Inheriting.{Sought};

    ghost Value = { Sought };

    ghost view = { λ r. record { env = r.hierarchy.now; name = r.called.now } };
}

#[tactic(auto, using(crate::proofs::FieldsHad::no_field_at))]
fn field_at(env: &DeclaredTypes, f: FieldId) -> Option<&OutlineField>
    ensures { option_copied result ≡ field_at env.now f }
{
    match env.declared_type(f.of) {
        Some(d) => d.of().fields.as_slice().get(f.place as usize),
        None => None,
    }
}

/// Whether a type inherits a field of a supertype that it doesn't hide (JLS 8.3).
fn inherits_field(env: &DeclaredTypes, t: TypeId, f: FieldId) -> bool
    ensures { result ≡ inherits_field env.now t f }
{
    match field_at(env, f) {
        Some(field) => passes_on(env, f.of, field.modifiers, t),
        None => false,
    }
}

/// The fields of a name among those of a type.
fn fields_called(
    alloc: Global,
    t: TypeId,
    name: &str,
    fields: &[OutlineField],
) -> Result<Items<FieldId>, AllocError>
    ensures { IfOk result (λ fs. fs ≡ fields_called t 0 name.now fields.now) }
{
    let mut called = Items::new(alloc);
    let mut place = 0;
    for field in fields {
        if name == field.name.as_str() {
            called.push(FieldId { of: t, place })?;
        }
        place += 1;
    }
    Ok(called)
}

/// The fields of a name that a type declares (JLS 8.3).
#[tactic(auto, using(crate::proofs::FieldsHad::declared_are, crate::proofs::FieldsHad::none_declared))]
pub fn declared_fields(
    alloc: Global,
    env: &DeclaredTypes,
    t: TypeId,
    name: &str,
) -> Result<Items<FieldId>, AllocError>
    ensures { IfOk result (λ fs. fs ≡ declared_fields env.now t name.now) }
{
    match env.declared_type(t) {
        Some(d) => fields_called(alloc, t, name, d.of().fields.as_slice()),
        None => Ok(Items::new(alloc)),
    }
}

fn as_members(alloc: Global, fields: &[FieldId]) -> Result<Items<Member>, AllocError>
    ensures { IfOk result (λ ms. ms ≡ map of_field fields.now) }
{
    let mut members = Items::new(alloc);
    for f in fields {
        members.push(Member {
            of: f.of.0,
            place: f.place,
        })?;
    }
    Ok(members)
}

fn as_fields(alloc: Global, members: &[Member]) -> Result<Items<FieldId>, AllocError>
    ensures { IfOk result (λ fs. fs ≡ map field_of members.now) }
{
    let mut fields = Items::new(alloc);
    for m in members {
        fields.push(FieldId {
            of: TypeId(m.of),
            place: m.place,
        })?;
    }
    Ok(fields)
}

/// The fields that a type inherits, of these.
fn those_inherited(
    alloc: Global,
    env: &DeclaredTypes,
    t: TypeId,
    members: &[Member],
) -> Result<Items<Member>, AllocError>
    ensures { IfOk result (λ ms. ms ≡ filter (λ m. inherits_field env.now t (field_of m)) members.now) }
{
    let mut inherited = Items::new(alloc);
    for m in members {
        let field = FieldId {
            of: TypeId(m.of),
            place: m.place,
        };
        if inherits_field(env, t, field) {
            inherited.push(*m)?;
        }
    }
    Ok(inherited)
}

/// The fields of a name that a type has which declares none.
fn inherited_fields(
    alloc: Global,
    env: &DeclaredTypes,
    t: TypeId,
    name: &str,
    inherited: &[Member],
) -> Result<Items<Member>, AllocError>
    requires none { declared_fields env.now t name.now ≡ [] }
    requires inherited { Same inherited.now (flat_map (fields_had env.now name.now) (known_supers env.now t)) }
    ensures { IfOk result (λ ms. Same ms (fields_had env.now name.now t)) }
{
    supertypes_have_no_cycle();
    sub_is_transitive();
    let kept = those_inherited(alloc, env, t, inherited)?;
    Ok(kept)
}

/// The fields of a name that a type declares, if it declares any.
fn own_fields(
    alloc: Global,
    env: &DeclaredTypes,
    t: TypeId,
    name: &str,
) -> Result<Option<Items<Member>>, AllocError>
    ensures { IfOk result (λ own. MatchOption own (declared_fields env.now t name.now ≡ []) (λ ms. Same ms (fields_had env.now name.now t))) }
{
    supertypes_have_no_cycle();
    sub_is_transitive();
    let own = declared_fields(alloc, env, t, name)?;
    if own.is_empty() {
        return Ok(None);
    }
    Ok(Some(as_members(alloc, own.as_slice())?))
}

impl<'a> Inherits for FieldsNamed<'a> {
    ghost use Rattle.std.specs.Prelude.{◌≡◌, []};
    ghost use Rattle.java_model.specs.Names.Fields.{declared_fields};
    ghost use Rattle.java_members.specs.Inheriting.{fields_had};

    ghost env = { λ r. r.env };

    ghost all = { λ r. fields_had r.env r.name };

    ghost Lacks = { λ r t. declared_fields r.env t r.name ≡ [] };

    fn supers(&self, t: TypeId) -> &[JType] {
        supers(self.hierarchy, t)
    }

    fn own(&self, alloc: Global, t: TypeId) -> Result<Option<Items<Member>>, AllocError> {
        own_fields(alloc, self.hierarchy.types(), t, self.called)
    }

    fn inherit(
        &self,
        alloc: Global,
        t: TypeId,
        inherited: &[Member],
    ) -> Result<Items<Member>, AllocError> {
        inherited_fields(alloc, self.hierarchy.types(), t, self.called, inherited)
    }
}

/// The fields of a name that a type has, in order of declaration (JLS 8.3, 9.3). No supertype is asked twice.
pub fn fields(
    alloc: Global,
    env: &Hierarchy,
    t: TypeId,
    name: &str,
) -> Result<Items<FieldId>, AllocError>
    ensures { IfOk result (λ fs. fs ≡ fields env.now t name.now) }
{
    let named = FieldsNamed {
        hierarchy: env,
        called: name,
    };
    let members = members_by(alloc, &named, t)?;
    let fields = as_fields(alloc, members.as_slice())?;
    Ok(fields)
}

/// The field that a name means: the first that is declared, else the only one that is inherited (JLS 8.3.3).
pub fn field_named(
    alloc: Global,
    env: &Hierarchy,
    t: TypeId,
    name: &str,
) -> Result<Option<FieldId>, AllocError>
    ensures { IfOk result (λ f. f ≡ field_named env.now t name.now) }
{
    let own = declared_fields(alloc, env.types(), t, name)?;
    if let [first, ..] = own.as_slice() {
        return Ok(Some(*first));
    }
    match fields(alloc, env, t, name)?.as_slice() {
        [one] => Ok(Some(*one)),
        _ => Ok(None),
    }
}
