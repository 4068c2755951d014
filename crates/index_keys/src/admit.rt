ghost use Rattle.std.specs.Prelude.{◌≡◌, Bool, List, ℕ, Option};
ghost use Rattle.std.specs.Option.{option_copied};
ghost use Rattle.java_tree.specs.declared.key.Category.{Category};
ghost use Rattle.index_keys.specs.Fields.{AdmitsOnly};

use java_tree::Category;

/// What admits keys of the index. Neither call takes memory.
pub trait Admit {
    /// Whether a key of this category with this text is admitted.
    ghost admitted: { Self → Category → List ℕ → Bool };

    /// The one name that each admitted key has as its first field, if there is one.
    ghost name: { Self → Option (List ℕ) };

    fn admits(&self, category: Category, text: &str) -> bool
        ensures { result ≡ admitted self.now category text.now };

    fn exact(&self) -> Option<&str>
        ensures value { option_copied result ≡ name self.now }
        ensures first_field { AdmitsOnly (admitted self.now) (name self.now) };
}
