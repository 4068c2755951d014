//! The types of the parts of a node, and the parts of a name.

ghost use Rattle.std.specs.Prelude.{◌≡◌, ◌++◌, IfOk, OnOk};
ghost use Rattle.java_model.specs.Bindings.Chains.{but_last, flat_types, last_name, part, sole};

use java_tree::{Items, JType, Text};
use std::alloc::{AllocError, Global};

/// The one type of an expression.
pub fn sole(alloc: Global, types: &[JType]) -> Result<JType, AllocError>
    ensures { IfOk result (λ t. t ≡ sole types.now) }
{
    match types {
        [] => Ok(JType::Unknown),
        [t, ..] => t.copy(alloc),
    }
}

/// The type of the part with this number.
pub fn part(alloc: Global, number: usize, parts: &[Items<JType>]) -> Result<JType, AllocError>
    ensures { IfOk result (λ t. t ≡ part number parts.now) }
{
    match parts.get(number) {
        Some(types) => sole(alloc, types.as_slice()),
        None => Ok(JType::Unknown),
    }
}

fn add_copies(alloc: Global, types: &[JType], all: &mut Items<JType>) -> Result<(), AllocError>
    ensures { OnOk result (all.new ≡ all.old ++ types.now) }
{
    for t in types {
        all.push(t.copy(alloc)?)?;
    }
    Ok(())
}

/// The types of all parts, in order.
pub fn flat_types(alloc: Global, parts: &[Items<JType>]) -> Result<Items<JType>, AllocError>
    ensures { IfOk result (λ ts. ts ≡ flat_types parts.now) }
{
    let mut all = Items::new(alloc);
    for types in parts {
        add_copies(alloc, types.as_slice(), &mut all)?;
    }
    Ok(all)
}

/// All identifiers of a name but the last one.
pub fn but_last(names: &[Text]) -> &[Text]
    ensures { result.now ≡ but_last names.now }
{
    match names {
        [] => names,
        [before @ .., _] => before,
    }
}

/// The last identifier of a name.
pub fn last_name(names: &[Text]) -> &str
    ensures { result.now ≡ last_name names.now }
{
    match names {
        [] => "",
        [.., last] => last.as_str(),
    }
}
