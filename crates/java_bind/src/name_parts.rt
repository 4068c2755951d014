//! Parts of names.

ghost use Rattle.std.specs.Prelude.{◌≡◌, IfOk};
ghost use Rattle.std.specs.Option.{option_copied};
ghost use Rattle.java_model.specs.Outlines.{spelled_name};
ghost use Rattle.java_model.specs.Bindings.Chains.{last_name};
ghost use Rattle.java_model.specs.Occurrences.Expressions.{all_but_last, only_last};
ghost use Rattle.java_bind.specs.Lasts.{last_of};

use java_tree::{Ident, Items, Text};
use std::alloc::{AllocError, Global};

/// The identifiers of a name by their characters.
pub(crate) fn spelled_name(alloc: Global, name: &[Ident]) -> Result<Items<Text>, AllocError>
    ensures { IfOk result (λ t. t ≡ spelled_name name.now) }
{
    let mut spelled = Items::new(alloc);
    for i in name {
        spelled.push(i.name.copy(alloc)?)?;
    }
    Ok(spelled)
}

/// The last identifier of a name.
pub(crate) fn last_of(name: &[Ident]) -> Option<&Ident>
    ensures { option_copied result ≡ last_of name.now }
{
    name.last()
}

/// The characters of the last identifier of a name.
pub(crate) fn last_name(name: &[Ident]) -> &str
    ensures { result.now ≡ last_name (spelled_name name.now) }
{
    match last_of(name) {
        Some(i) => i.name.as_str(),
        None => "",
    }
}

/// What stands before the last dot of a name.
pub(crate) fn all_but_last(name: &[Ident]) -> &[Ident]
    ensures { result.now ≡ all_but_last name.now }
{
    if name.is_empty() {
        name
    } else {
        &name[..name.len() - 1]
    }
}

/// The last identifier of a name, as a name.
pub(crate) fn only_last(name: &[Ident]) -> &[Ident]
    ensures { result.now ≡ only_last name.now }
{
    if name.is_empty() {
        name
    } else {
        &name[name.len() - 1..]
    }
}
