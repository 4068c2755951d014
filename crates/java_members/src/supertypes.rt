//! Direct supertypes.

ghost use Rattle.std.specs.Prelude.{◌≡◌};
ghost use Rattle.java_model.specs.Names.Supertypes.{supers};

use java_supers::Hierarchy;
use java_tree::{JType, TypeId};

/// The direct supertypes of a type, none of one that isn't in the environment.
#[tactic(auto, using(crate::proofs::NoSupers::none_undeclared))]
pub(crate) fn supers(env: &Hierarchy, t: TypeId) -> &[JType]
    ensures { result.now ≡ supers env.now t }
{
    if env.types().has(t) {
        env.supers(t)
    } else {
        &[]
    }
}
