//! Types that a walk comes to.

ghost use Rattle.std.specs.Prelude.{◌≡◌, ◌∷◌, [], OnOk};
ghost use Rattle.std.specs.List.{flat_map};
ghost use Rattle.java_model.specs.Names.TypeNames.{class_of};
ghost use Rattle.java_env.specs.Walks.{Adds, has};

use java_tree::{Items, JType, TypeId};
use std::alloc::AllocError;
use std::collections::BTreeSet;

/// Adds a type that isn't seen, and it is seen then.
pub(crate) fn add_one(
    seen: &mut BTreeSet<u64>,
    t: TypeId,
    new: &mut Items<TypeId>,
) -> Result<(), AllocError>
    ensures { OnOk result (Adds (has seen.old) new.old (t ∷ []) (has seen.new) new.new) }
{
    if seen.insert(t.0)? {
        new.push(t)?;
    }
    Ok(())
}

/// Adds the classes among types.
pub(crate) fn add_classes(
    seen: &mut BTreeSet<u64>,
    types: &[JType],
    new: &mut Items<TypeId>,
) -> Result<(), AllocError>
    ensures { OnOk result (Adds (has seen.old) new.old (flat_map class_of types.now) (has seen.new) new.new) }
{
    for of in types {
        if let JType::Class(t) = of {
            add_one(seen, *t, new)?;
        }
    }
    Ok(())
}
