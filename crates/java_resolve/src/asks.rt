ghost use Rattle.std.specs.Prelude.{◌≡◌, IfOk};
ghost use Rattle.java_model.specs.Names.TypeNames.{Ask};
ghost use Rattle.java_resolve.specs.Occasions.{Occasion};

use crate::fault::AskFault;
use java_tree::{Items, TypeId};
use std::alloc::Global;

/// What tells the member types of a type by their name.
pub trait Asks {
    /// Which answers to all questions fit those that it has given.
    ghost Fits: { Self → Ask → Type 0 };

    /// For whom it asks.
    ghost IsAt: { Self → Occasion → Type 0 };

    fn ask(&mut self, alloc: Global, t: TypeId, name: &str) -> Result<Items<TypeId>, AskFault>
        ensures value { IfOk result (λ ts. (a : Ask) → Fits self.new a → ts ≡ a t name.now) }
        ensures grows { (a : Ask) → Fits self.new a → Fits self.old a }
        ensures keeps { (o : Occasion) → IsAt self.old o → IsAt self.new o };
}
