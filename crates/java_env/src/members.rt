//! What is kept of the fields, methods and constructors of a type: their types are resolved once.

ghost use Rattle.std.specs.Prelude.{◌≡◌, ◌+◌, ◌||◌, ◌++◌, [], Some, None, is_none, map, not, IfOk, OnOk};
ghost use Rattle.std.specs.List.{last_or};
ghost use Rattle.std.specs.Option.{option_copied};
ghost use Rattle.java_model.specs.Names.Accessibility.{top_level};
ghost use Rattle.java_model.specs.Names.Environments.{Declared, declared_at, info_of, is_interface, type_id};
ghost use Rattle.java_model.specs.Names.Fields.{field_info_of};
ghost use Rattle.java_model.specs.Names.MemberTypes.{resolve_in_body};
ghost use Rattle.java_model.specs.Names.Methods.{bodies_of, default_constructor, default_constructors, method_info_of};
ghost use Rattle.java_model.specs.Names.TypeNames.{body_scope};
ghost use Rattle.java_model.specs.Names.Types.{spelled};
ghost use Rattle.java_resolve.specs.Resolving.{scope_of};
ghost use Rattle.java_supers.specs.Reaching.{HasAll};
ghost use Rattle.java_types.specs.Entries.{has_no_document};
ghost use Rattle.java_env.specs.Members.{members_of, top_kept};

use crate::visibility::type_access;
use java_jtypes::{with_dims, word_type};
use java_members::resolve;
use java_resolve::{TypeBound, body_bounds};
use java_supers::Hierarchy;
use java_tree::{
    FieldInfo, Items, JType, MethodInfo, OutlineField, OutlineMethod, SpelledType, TypeId,
    TypeInfo, TypeKind,
};
use java_types::{DeclaredType, DeclaredTypes, types_around};
use std::alloc::{AllocError, Global};

/// The fields of a type, its methods and then its constructors, how many of these are methods, and the top level type
/// around it.
#[derive(Debug, Drop)]
pub struct Members {
    pub fields: Items<FieldInfo>,
    pub bodies: Items<MethodInfo>,
    pub methods: u64,
    pub top: Option<TypeId>,
}

/// What a spelled type in the body of a type means.
fn spelled(
    alloc: Global,
    env: &Hierarchy,
    d: &DeclaredType<'_>,
    bounds: &[TypeBound],
    of: &SpelledType,
) -> Result<JType, AllocError>
    requires { scope_of d.now.outline bounds.now ≡ body_scope d.now }
    ensures { IfOk result (λ t. t ≡ spelled (resolve_in_body env.now d.now) of.now) }
{
    let dims = u64::from(of.dims);
    match word_type(of.name.as_slice()) {
        Some(word) => with_dims(word, dims),
        None => with_dims(
            resolve(alloc, env, d.outline(), bounds, of.name.as_slice())?,
            dims,
        ),
    }
}

/// What spelled types in the body of a type mean.
fn all_spelled(
    alloc: Global,
    env: &Hierarchy,
    d: &DeclaredType<'_>,
    bounds: &[TypeBound],
    types: &[SpelledType],
) -> Result<Items<JType>, AllocError>
    requires { scope_of d.now.outline bounds.now ≡ body_scope d.now }
    ensures { IfOk result (λ ts. ts ≡ map (spelled (resolve_in_body env.now d.now)) types.now) }
{
    let mut all = Items::new(alloc);
    for of in types {
        all.push(spelled(alloc, env, d, bounds, of)?)?;
    }
    Ok(all)
}

fn field_info(
    alloc: Global,
    env: &Hierarchy,
    d: &DeclaredType<'_>,
    bounds: &[TypeBound],
    field: &OutlineField,
) -> Result<FieldInfo, AllocError>
    requires { scope_of d.now.outline bounds.now ≡ body_scope d.now }
    ensures { IfOk result (λ f. f ≡ field_info_of env.now d.now field.now) }
{
    let of = spelled(alloc, env, d, bounds, &field.of)?;
    let name = field.name.copy(alloc)?;
    Ok(FieldInfo {
        name,
        of,
        modifiers: field.modifiers,
        span: field.span,
    })
}

fn all_fields(
    alloc: Global,
    env: &Hierarchy,
    d: &DeclaredType<'_>,
    bounds: &[TypeBound],
) -> Result<Items<FieldInfo>, AllocError>
    requires { scope_of d.now.outline bounds.now ≡ body_scope d.now }
    ensures { IfOk result (λ fs. fs ≡ map (field_info_of env.now d.now) d.now.type.fields) }
{
    let mut infos = Items::new(alloc);
    for field in d.of().fields.as_slice() {
        infos.push(field_info(alloc, env, d, bounds, field)?)?;
    }
    Ok(infos)
}

fn method_info(
    alloc: Global,
    env: &Hierarchy,
    d: &DeclaredType<'_>,
    bounds: &[TypeBound],
    method: &OutlineMethod,
) -> Result<MethodInfo, AllocError>
    requires { scope_of d.now.outline bounds.now ≡ body_scope d.now }
    ensures { IfOk result (λ m. m ≡ method_info_of env.now d.now method.now) }
{
    let params = all_spelled(alloc, env, d, bounds, method.params.as_slice())?;
    let of = spelled(alloc, env, d, bounds, &method.result)?;
    let name = method.name.copy(alloc)?;
    Ok(MethodInfo {
        name,
        params,
        result: of,
        modifiers: method.modifiers,
        span: method.span,
    })
}

fn add_methods(
    alloc: Global,
    env: &Hierarchy,
    d: &DeclaredType<'_>,
    bounds: &[TypeBound],
    methods: &[OutlineMethod],
    infos: &mut Items<MethodInfo>,
) -> Result<(), AllocError>
    requires { scope_of d.now.outline bounds.now ≡ body_scope d.now }
    ensures { OnOk result (infos.new ≡ infos.old ++ map (method_info_of env.now d.now) methods.now) }
{
    for method in methods {
        infos.push(method_info(alloc, env, d, bounds, method)?)?;
    }
    Ok(())
}

/// The constructor of a class that declares none (JLS 8.8.7).
fn default_constructor(
    alloc: Global,
    env: &Hierarchy,
    t: TypeId,
    d: &DeclaredType<'_>,
) -> Result<MethodInfo, AllocError>
    requires { declared_at env.now t ≡ Some d.now }
    ensures { IfOk result (λ m. m ≡ method_info_of env.now d.now (default_constructor env.now d.now)) }
{
    let types = env.types();
    let modifiers = type_access(types, types.type_info(t));
    let name = d.of().name.copy(alloc)?;
    Ok(MethodInfo {
        name,
        params: Items::new(alloc),
        result: JType::Void,
        modifiers,
        span: d.of().span,
    })
}

/// Whether a type that declares no constructor has one: a class that a document declares.
fn has_default(known: &TypeInfo) -> bool
    ensures { (d : Declared) → info_of d ≡ known.now → result ≡ not (is_interface d.type.kind || is_none d.doc) }
{
    !(matches!(known.kind, TypeKind::Interface) || known.doc.is_none())
}

/// Adds the constructor of a class that declares none.
fn add_default(
    alloc: Global,
    env: &Hierarchy,
    t: TypeId,
    d: &DeclaredType<'_>,
    infos: &mut Items<MethodInfo>,
) -> Result<(), AllocError>
    requires { declared_at env.now t ≡ Some d.now }
    ensures { OnOk result (infos.new ≡ infos.old ++ map (method_info_of env.now d.now) (default_constructors env.now d.now d.now.type.constructors)) }
{
    match d.of().constructors.as_slice() {
        [] => {}
        [_, ..] => return Ok(()),
    }
    if !has_default(env.types().type_info(t)) {
        return Ok(());
    }
    infos.push(default_constructor(alloc, env, t, d)?)?;
    Ok(())
}

fn last_of(numbers: &[u64]) -> Option<&u64>
    ensures { option_copied result ≡ last_or None numbers.now }
{
    numbers.last()
}

/// The id of a type of an outline. No outline is long enough for the sum to overflow.
fn id_of(first: u64, number: u64) -> Result<TypeId, AllocError>
    ensures { IfOk result (λ t. t ≡ type_id (first + number)) }
{
    match first.checked_add(number) {
        Some(id) => Ok(TypeId(id)),
        None => Err(AllocError),
    }
}

/// The top level type around a type (JLS 7.6).
fn top_level(alloc: Global, d: &DeclaredType<'_>) -> Result<Option<TypeId>, AllocError>
    ensures { IfOk result (λ t. t ≡ top_level d.now) }
{
    let around = types_around(alloc, d.outline().types.as_slice(), d.number())?;
    let Some(number) = last_of(around.as_slice()) else {
        return Ok(None);
    };
    let top = id_of(d.first(), *number)?;
    Ok(Some(top))
}

/// The type, if it is one of the environment.
fn itself(types: &DeclaredTypes, t: TypeId) -> Option<TypeId>
    requires { has_no_document types.now t }
    ensures { result ≡ top_kept (declared_at types.now t) }
{
    if types.has(t) { Some(t) } else { None }
}

/// The members of a type of a document.
fn declared_members(
    alloc: Global,
    env: &Hierarchy,
    t: TypeId,
    d: &DeclaredType<'_>,
) -> Result<Members, AllocError>
    requires { declared_at env.now t ≡ Some d.now }
    ensures { IfOk result (λ m. m ≡ members_of env.now t) }
{
    let bounds = body_bounds(alloc, d)?;
    let around = bounds.as_slice();
    let fields = all_fields(alloc, env, d, around)?;
    let top = top_level(alloc, d)?;
    let mut bodies = Items::new(alloc);
    add_methods(
        alloc,
        env,
        d,
        around,
        d.of().methods.as_slice(),
        &mut bodies,
    )?;
    add_methods(
        alloc,
        env,
        d,
        around,
        d.of().constructors.as_slice(),
        &mut bodies,
    )?;
    add_default(alloc, env, t, d, &mut bodies)?;
    Ok(Members {
        fields,
        bodies,
        methods: d.of().methods.len() as u64,
        top,
    })
}

/// The members of a type, of which one that no document declares has none.
fn members_of(alloc: Global, env: &Hierarchy, t: TypeId) -> Result<Members, AllocError>
    ensures { IfOk result (λ m. m ≡ members_of env.now t) }
{
    match env.types().declared_type(t) {
        Some(d) => declared_members(alloc, env, t, &d),
        None => Ok(Members {
            fields: Items::new(alloc),
            bodies: Items::new(alloc),
            methods: 0,
            top: itself(env.types(), t),
        }),
    }
}

/// The members of all types.
pub(crate) fn all_members(alloc: Global, env: &Hierarchy) -> Result<Items<Members>, AllocError>
    ensures { IfOk result (λ ms. HasAll (members_of env.now) env.now ms) }
{
    let mut all = Items::new(alloc);
    for number in 0..env.types().len() {
        all.push(members_of(alloc, env, TypeId(number as u64))?)?;
    }
    Ok(all)
}
