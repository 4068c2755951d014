//! Array types (JLS 10.1).

ghost use Rattle.std.specs.Prelude.{◌≡◌, ◌+◌, IfOk};
ghost use Rattle.java_tree.specs.declared.types.JType.TheVariants as types;
ghost use Rattle.java_model.specs.Names.Types.{array_of, component, element_type, with_dims};

use java_tree::{ArrayElement, JType};
use std::alloc::AllocError;

/// An element type by itself.
pub fn element_type(element: ArrayElement) -> JType
    ensures { result ≡ element_type element }
{
    match element {
        ArrayElement::Primitive(primitive) => JType::Primitive(primitive),
        ArrayElement::Void => JType::Void,
        ArrayElement::Class(t) => JType::Class(t),
        ArrayElement::Absent(name) => JType::Absent(name),
    }
}

/// An element type with so many `[]`. Only more than 2^32 of them are an error.
pub fn array_of(element: ArrayElement, dims: u64) -> Result<JType, AllocError>
    ensures { IfOk result (λ t. t ≡ array_of element dims) }
{
    if dims == 0 {
        return Ok(element_type(element));
    }
    match u32::try_from(dims) {
        Ok(dims) => Ok(JType::Array(element, dims)),
        Err(_) => Err(AllocError),
    }
}

/// An array type with so many `[]` more.
fn more_dims(element: ArrayElement, own: u32, dims: u64) -> Result<JType, AllocError>
    ensures { IfOk result (λ t. t ≡ array_of element (own + dims)) }
{
    match dims.checked_add(u64::from(own)) {
        Some(all) => array_of(element, all),
        None => Err(AllocError),
    }
}

/// A type with so many `[]` more. Only more than 2^32 of them are an error.
pub fn with_dims(of: JType, dims: u64) -> Result<JType, AllocError>
    ensures { IfOk result (λ t. t ≡ with_dims of dims) }
{
    match of {
        JType::Primitive(primitive) => array_of(ArrayElement::Primitive(primitive), dims),
        JType::Void => array_of(ArrayElement::Void, dims),
        JType::Null => Ok(JType::Null),
        JType::Class(t) => array_of(ArrayElement::Class(t), dims),
        JType::Absent(name) => array_of(ArrayElement::Absent(name), dims),
        JType::Array(element, own) => more_dims(element, own, dims),
        JType::Unknown => Ok(JType::Unknown),
    }
}

/// An element type with fewer `[]` than an array of so many.
fn one_less(element: ArrayElement, dims: u32) -> JType
    ensures { result ≡ component (types.Array element dims) }
{
    match dims {
        0 => JType::Unknown,
        1 => element_type(element),
        _ => JType::Array(element, dims - 1),
    }
}

/// The type that one index takes from an array (JLS 15.13).
pub fn component(of: JType) -> JType
    ensures { result ≡ component of }
{
    match of {
        JType::Array(element, dims) => one_less(element, dims),
        _ => JType::Unknown,
    }
}
