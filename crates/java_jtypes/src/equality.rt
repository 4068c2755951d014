//! Equality of types.

ghost use Rattle.std.specs.Prelude.{◌≡◌};
ghost use Rattle.java_model.specs.Names.Lists.{same_name};
ghost use Rattle.java_model.specs.Names.Types.{same_element, same_type};
ghost use lib.Pointwise.{pointwise};

use crate::primitives::same_primitive;
use java_tree::{ArrayElement, JType, Text};

/// Whether names have the same identifiers.
pub fn same_name(left: &[Text], right: &[Text]) -> bool
    ensures { result ≡ same_name left.now right.now }
{
    let mut others = right;
    for name in left {
        let [other, ..] = others else {
            return false;
        };
        if name.as_str() != other.as_str() {
            return false;
        }
        others = &others[1..];
    }
    others.is_empty()
}

/// Whether element types are equal.
pub fn same_element(left: &ArrayElement, right: &ArrayElement) -> bool
    ensures { result ≡ same_element left.now right.now }
{
    match (left, right) {
        (ArrayElement::Primitive(p), ArrayElement::Primitive(q)) => same_primitive(*p, *q),
        (ArrayElement::Void, ArrayElement::Void) => true,
        (ArrayElement::Class(s), ArrayElement::Class(t)) => s.0 == t.0,
        (ArrayElement::Absent(m), ArrayElement::Absent(n)) => same_name(m.as_slice(), n.as_slice()),
        _ => false,
    }
}

/// Whether types are equal. Types that no document declares are equal where their names are.
pub fn same_type(left: &JType, right: &JType) -> bool
    ensures { result ≡ same_type left.now right.now }
{
    match (left, right) {
        (JType::Primitive(p), JType::Primitive(q)) => same_primitive(*p, *q),
        (JType::Void, JType::Void) => true,
        (JType::Null, JType::Null) => true,
        (JType::Class(s), JType::Class(t)) => s.0 == t.0,
        (JType::Absent(m), JType::Absent(n)) => same_name(m.as_slice(), n.as_slice()),
        (JType::Array(e, m), JType::Array(f, n)) => same_element(e, f) && *m == *n,
        (JType::Unknown, JType::Unknown) => true,
        _ => false,
    }
}

/// Whether lists of types are equal, type by type.
pub fn same_types(left: &[JType], right: &[JType]) -> bool
    ensures { result ≡ pointwise same_type left.now right.now }
{
    let mut others = right;
    for of in left {
        let [other, ..] = others else {
            return false;
        };
        if !same_type(of, other) {
            return false;
        }
        others = &others[1..];
    }
    others.is_empty()
}
