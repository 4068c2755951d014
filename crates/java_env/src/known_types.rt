//! The types that the language knows by name.

ghost use Rattle.std.specs.Prelude.{◌≡◌, [], ◌∷◌, false, IfOk};
ghost use Rattle.std.specs.Option.{option_map_or};
ghost use Rattle.java_model.specs.Names.Conversions.{is_array_super};
ghost use Rattle.java_model.specs.Names.Environments.{Env as AnEnv, same_id, type_named};
ghost use Rattle.java_env.specs.KnownTypes.{AreOf};

use java_tree::{Text, TypeId};
use java_types::DeclaredTypes;
use std::alloc::{AllocError, Global};

/// `Object`, and the interfaces that arrays implement (JLS 4.3.2, 10.7).
#[derive(Debug, Drop)]
pub struct KnownTypes {
    pub object: TypeId,
    pub cloneable: Option<TypeId>,
    pub serializable: Option<TypeId>,
}

fn type_named(
    alloc: Global,
    types: &DeclaredTypes,
    qualifier: &str,
    name: &str,
) -> Result<Option<TypeId>, AllocError>
    ensures { IfOk result (λ t. t ≡ type_named types.now qualifier.now (name.now ∷ [])) }
{
    let names = [Text::from_str(alloc, name)?];
    Ok(types.type_named(qualifier, &names))
}

fn is_same(t: TypeId, other: Option<TypeId>) -> bool
    ensures { result ≡ option_map_or (same_id t) other false }
{
    match other {
        Some(other) => t.0 == other.0,
        None => false,
    }
}

impl KnownTypes {
    /// Those of an environment.
    pub(crate) fn of(alloc: Global, types: &DeclaredTypes) -> Result<KnownTypes, AllocError>
        ensures { IfOk result (λ known. AreOf types.now known) }
    {
        let object = type_named(alloc, types, "java.lang", "Object")?;
        let cloneable = type_named(alloc, types, "java.lang", "Cloneable")?;
        let serializable = type_named(alloc, types, "java.io", "Serializable")?;
        Ok(KnownTypes {
            object: object.unwrap_or(TypeId(0)),
            cloneable,
            serializable,
        })
    }

    /// Whether a type is the superclass of an array, or an interface that it implements (JLS 10.7).
    pub(crate) fn is_array_super(&self, t: TypeId) -> bool
        ensures { (env : AnEnv) → AreOf env self.now → result ≡ is_array_super env t }
    {
        t.0 == self.object.0 || is_same(t, self.cloneable) || is_same(t, self.serializable)
    }
}
