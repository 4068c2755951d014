//! Types by the words that spell them.

ghost use Rattle.std.specs.Prelude.{◌≡◌, [], ◌∷◌, unwrap_or, IfOk};
ghost use Rattle.java_tree.specs.declared.types.JType.{JType as AType};
ghost use Rattle.java_model.specs.Names.Lists.{Identifiers};
ghost use Rattle.java_model.specs.Names.Types.{word_type};

use crate::primitives::primitive_named;
use java_tree::{Items, JType, Text};
use std::alloc::{AllocError, Global};

fn one_word(word: &str) -> Option<JType>
    ensures { (mean : Identifiers → AType) → unwrap_or result (mean (word.now ∷ [])) ≡ word_type mean (word.now ∷ []) }
{
    match primitive_named(word) {
        Some(primitive) => Some(JType::Primitive(primitive)),
        None if word == "void" => Some(JType::Void),
        None => None,
    }
}

/// The type that one word spells, of a primitive type or `void`. Any other name is to be looked up.
pub fn word_type(name: &[Text]) -> Option<JType>
    ensures { (mean : Identifiers → AType) → unwrap_or result (mean name.now) ≡ word_type mean name.now }
{
    match name {
        [word] => one_word(word.as_str()),
        _ => None,
    }
}

/// Equal types. Its only error is to be out of memory.
pub fn copy_types(alloc: Global, types: &[JType]) -> Result<Items<JType>, AllocError>
    ensures { IfOk result (λ copies. copies ≡ types.now) }
{
    let mut copies = Items::new(alloc);
    for of in types {
        copies.push(of.copy(alloc)?)?;
    }
    Ok(copies)
}
