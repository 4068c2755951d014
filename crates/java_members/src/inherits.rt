//! What types inherit of their supertypes, whatever kind of members it is.

ghost use Rattle.std.specs.Prelude.{◌≡◌, List, IfOk, MatchOption};
ghost use Rattle.std.specs.List.{flat_map};
ghost use Rattle.java_tree.specs.declared.occurrence.TypeId.{TypeId as AnId};
ghost use Rattle.java_model.specs.Names.Environments.{Env as AnEnv};
ghost use Rattle.java_model.specs.Names.Supertypes.{known_supers, supers};
ghost use Rattle.java_members.specs.Members.{Same};
ghost use Rattle.java_members.specs.declared.member.Member.{Member as AMember};

use crate::member::Member;
use java_tree::{Items, JType, TypeId};
use std::alloc::{AllocError, Global};

/// What tells the members of a type, given those of its supertypes.
pub trait Inherits {
    ghost env: { Self → AnEnv };

    /// The members of a type.
    ghost all: { Self → AnId → List AMember };

    /// Whose supertypes count.
    ghost Lacks: { Self → AnId → Type 0 };

    /// The direct supertypes of a type.
    fn supers(&self, t: TypeId) -> &[JType]
        ensures { result.now ≡ supers (env self.now) t };

    /// The members of a type whose supertypes don't count.
    fn own(&self, alloc: Global, t: TypeId) -> Result<Option<Items<Member>>, AllocError>
        ensures { IfOk result (λ own. MatchOption own (Lacks self.now t) (λ ms. Same ms (all self.now t))) };

    /// The members of a type, given those of its direct supertypes.
    fn inherit(
        &self,
        alloc: Global,
        t: TypeId,
        inherited: &[Member],
    ) -> Result<Items<Member>, AllocError>
        requires lacks { Lacks self.now t }
        requires inherited { Same inherited.now (flat_map (all self.now) (known_supers (env self.now) t)) }
        ensures { IfOk result (λ ms. Same ms (all self.now t)) };
}
