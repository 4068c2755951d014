//! Names and types as they are spelled.

ghost use Rattle.std.specs.Prelude.{◌≡◌, ◌==◌, ◌≤◌, [], ◌∷◌, map, IfOk};
ghost use Rattle.std.specs.List.{list_any};
ghost use Rattle.java_model.specs.Outlines.{spelled_name, spelled_names, spelled_primitive, spelled_element, spelled_type, spelled_void, spelled_result, bit_of, bit_in, spelled_modifiers, parameter_types, optional_name};

use crate::finding::spelled_name;
use java_tree::{
    ElementType, Items, Modifier, Name, Parameter, Primitive, ResultType, SpelledType, Text,
    TypeUse,
};
use std::alloc::{AllocError, Global};

pub(crate) fn spelled_names(alloc: Global, names: &[Name]) -> Result<Items<Items<Text>>, AllocError>
    ensures { IfOk result (λ ns. ns ≡ spelled_names names.now) }
{
    let mut copies = Items::new(alloc);
    for name in names {
        copies.push(spelled_name(alloc, name.as_slice())?)?;
    }
    Ok(copies)
}

/// The one name, or none.
pub(crate) fn optional_name(
    alloc: Global,
    name: &Option<Name>,
) -> Result<Items<Items<Text>>, AllocError>
    ensures { IfOk result (λ ns. ns ≡ optional_name name.now) }
{
    let mut copies = Items::new(alloc);
    match name {
        Some(name) => {
            copies.push(spelled_name(alloc, name.as_slice())?)?;
            Ok(copies)
        }
        None => Ok(copies),
    }
}

/// The word of a primitive type (JLS 4.2).
fn primitive_word(primitive: Primitive) -> &'static str
    ensures { result.now ≡ spelled_primitive primitive }
{
    match primitive {
        Primitive::Boolean => "boolean",
        Primitive::Byte => "byte",
        Primitive::Short => "short",
        Primitive::Char => "char",
        Primitive::Int => "int",
        Primitive::Long => "long",
        Primitive::Float => "float",
        Primitive::Double => "double",
    }
}

/// One word as a name.
fn one_word(alloc: Global, word: &str) -> Result<Items<Text>, AllocError>
    ensures { IfOk result (λ n. n ≡ word.now ∷ []) }
{
    let mut name = Items::new(alloc);
    name.push(Text::from_str(alloc, word)?)?;
    Ok(name)
}

fn spelled_element(alloc: Global, element: &ElementType) -> Result<Items<Text>, AllocError>
    ensures { IfOk result (λ n. n ≡ spelled_element element.now) }
{
    match element {
        ElementType::Primitive(primitive) => one_word(alloc, primitive_word(*primitive)),
        ElementType::Named(name) => spelled_name(alloc, name.as_slice()),
    }
}

/// A type with so many `[]` after what it is the type of (JLS 10.2). No text is long enough for the sum to
/// overflow.
pub(crate) fn spelled_type(
    alloc: Global,
    of: &TypeUse,
    dims: u32,
) -> Result<SpelledType, AllocError>
    ensures { IfOk result (λ t. t ≡ spelled_type of.now dims) }
{
    let name = spelled_element(alloc, &of.element)?;
    match of.dims.checked_add(dims) {
        Some(dims) => Ok(SpelledType { name, dims }),
        None => Err(AllocError),
    }
}

pub(crate) fn spelled_void(alloc: Global, dims: u32) -> Result<SpelledType, AllocError>
    ensures { IfOk result (λ t. t ≡ spelled_void dims) }
{
    let name = one_word(alloc, "void")?;
    Ok(SpelledType { name, dims })
}

pub(crate) fn spelled_result(
    alloc: Global,
    result_type: &ResultType,
    dims: u32,
) -> Result<SpelledType, AllocError>
    ensures { IfOk result (λ t. t ≡ spelled_result result_type.now dims) }
{
    match result_type {
        ResultType::Void => spelled_void(alloc, dims),
        ResultType::Of(of) => spelled_type(alloc, of, dims),
    }
}

pub(crate) fn parameter_types(
    alloc: Global,
    parameters: &[Parameter],
) -> Result<Items<SpelledType>, AllocError>
    ensures { IfOk result (λ ts. ts ≡ parameter_types parameters.now) }
{
    let mut types = Items::new(alloc);
    for parameter in parameters {
        types.push(spelled_type(alloc, &parameter.of, parameter.dims)?)?;
    }
    Ok(types)
}

/// The bit of a modifier.
fn bit_of(modifier: Modifier) -> u16
    ensures { result ≡ bit_of modifier }
{
    match modifier {
        Modifier::Abstract => 1,
        Modifier::Final => 2,
        Modifier::Native => 4,
        Modifier::Private => 8,
        Modifier::Protected => 16,
        Modifier::Public => 32,
        Modifier::Static => 64,
        Modifier::StrictFp => 128,
        Modifier::Synchronized => 256,
        Modifier::Transient => 512,
        Modifier::Volatile => 1024,
    }
}

fn has_bit(modifiers: &[Modifier], bit: u16) -> bool
    ensures { result ≡ list_any (λ m. bit_of m == bit) modifiers.now }
{
    modifiers.iter().any(|m| bit_of(*m) == bit)
}

/// The bit, where a modifier has it.
fn bit_in(modifiers: &[Modifier], bit: u16) -> u16
    ensures value { result ≡ bit_in modifiers.now bit }
    ensures bound { result ≤ bit }
{
    if has_bit(modifiers, bit) { bit } else { 0 }
}

/// A bit for each modifier that is spelled (JLS 8.1.1, 8.3.1, 8.4.3).
pub(crate) fn spelled_modifiers(modifiers: &[Modifier]) -> u16
    ensures { result ≡ spelled_modifiers modifiers.now }
{
    bit_in(modifiers, 1)
        + bit_in(modifiers, 2)
        + bit_in(modifiers, 4)
        + bit_in(modifiers, 8)
        + bit_in(modifiers, 16)
        + bit_in(modifiers, 32)
        + bit_in(modifiers, 64)
        + bit_in(modifiers, 128)
        + bit_in(modifiers, 256)
        + bit_in(modifiers, 512)
        + bit_in(modifiers, 1024)
}
