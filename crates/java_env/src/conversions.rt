//! Method invocation conversion (JLS 5.3).

ghost use Rattle.std.specs.Prelude.{◌≡◌};
ghost use Rattle.java_tree.specs.declared.types.JType.TheVariants as types;
ghost use Rattle.java_model.specs.Names.Conversions.{array_converts, array_to_element, class_converts, converts, element_converts, element_to_array};
ghost use Rattle.java_model.specs.Names.Supertypes.{is_sub, supers};
ghost use Rattle.java_env.specs.KnownTypes.{AreOf};

use crate::known_types::KnownTypes;
use java_jtypes::{same_element, same_primitive, same_type, widens};
use java_supers::Hierarchy;
use java_tree::{ArrayElement, JType, TypeId};

/// The direct supertypes of a type, its superclass first.
pub(crate) fn supers(env: &Hierarchy, t: TypeId) -> &[JType]
    ensures { result.now ≡ supers env.now t }
{
    if env.types().has(t) {
        env.supers(t)
    } else {
        &[]
    }
}

/// Whether a type is a subtype of another.
pub(crate) fn is_sub(env: &Hierarchy, s: TypeId, t: TypeId) -> bool
    ensures { result ≡ is_sub env.now s t }
{
    if env.types().has(s) {
        env.is_sub(s, t)
    } else {
        false
    }
}

/// Whether a class or interface converts to another: to its supertypes and to Object.
fn class_converts(env: &Hierarchy, known: &KnownTypes, s: TypeId, t: TypeId) -> bool
    requires { AreOf env.now known.now }
    ensures { result ≡ class_converts env.now s t }
{
    s.0 == t.0 || is_sub(env, s, t) || t.0 == known.object.0
}

/// Whether elements of arrays of equally many dimensions convert.
fn element_converts(
    env: &Hierarchy,
    known: &KnownTypes,
    from: &ArrayElement,
    to: &ArrayElement,
) -> bool
    requires { AreOf env.now known.now }
    ensures { result ≡ element_converts env.now from.now to.now }
{
    match (from, to) {
        (ArrayElement::Class(s), ArrayElement::Class(t)) => class_converts(env, known, *s, *t),
        (ArrayElement::Class(_), ArrayElement::Absent(_)) => true,
        (ArrayElement::Absent(_), ArrayElement::Class(_)) => true,
        (ArrayElement::Absent(_), ArrayElement::Absent(_)) => true,
        _ => same_element(from, to),
    }
}

/// Whether an array converts to an element of another.
fn array_to_element(env: &Hierarchy, known: &KnownTypes, to: &ArrayElement) -> bool
    requires { AreOf env.now known.now }
    ensures { result ≡ array_to_element env.now to.now }
{
    match to {
        ArrayElement::Class(t) => known.is_array_super(*t),
        ArrayElement::Absent(_) => true,
        _ => false,
    }
}

fn element_to_array(from: &ArrayElement) -> bool
    ensures { result ≡ element_to_array from.now }
{
    matches!(from, ArrayElement::Absent(_))
}

/// Whether an array converts to another (JLS 5.1.4).
fn array_converts(
    env: &Hierarchy,
    known: &KnownTypes,
    from_dims: u32,
    from: &ArrayElement,
    to_dims: u32,
    to: &ArrayElement,
) -> bool
    requires { AreOf env.now known.now }
    ensures { result ≡ array_converts env.now from_dims from.now to_dims to.now }
{
    if from_dims == to_dims {
        element_converts(env, known, from, to)
    } else if from_dims < to_dims {
        element_to_array(from)
    } else {
        array_to_element(env, known, to)
    }
}

/// Whether an array converts to a type.
fn array_converts_to(
    env: &Hierarchy,
    known: &KnownTypes,
    element: &ArrayElement,
    dims: u32,
    to: &JType,
) -> bool
    requires { AreOf env.now known.now }
    ensures { result ≡ converts env.now (types.Array element.now dims) to.now }
{
    match to {
        JType::Class(t) => known.is_array_super(*t),
        JType::Absent(_) => true,
        JType::Array(f, n) => array_converts(env, known, dims, element, *n, f),
        _ => false,
    }
}

/// Whether a value of a type may be passed for a parameter of another.
pub(crate) fn converts(env: &Hierarchy, known: &KnownTypes, from: &JType, to: &JType) -> bool
    requires { AreOf env.now known.now }
    ensures { result ≡ converts env.now from.now to.now }
{
    match (from, to) {
        (JType::Unknown, _) => true,
        (JType::Primitive(p), JType::Primitive(q)) => same_primitive(*p, *q) || widens(*p, *q),
        (JType::Null, JType::Class(_) | JType::Absent(_) | JType::Array(_, _)) => true,
        (JType::Class(s), JType::Class(t)) => class_converts(env, known, *s, *t),
        (JType::Class(_), JType::Absent(_)) => true,
        (JType::Absent(_), JType::Class(_) | JType::Absent(_) | JType::Array(_, _)) => true,
        (JType::Array(e, m), _) => array_converts_to(env, known, e, *m, to),
        _ => same_type(from, to),
    }
}
