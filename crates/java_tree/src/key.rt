ghost use Rattle.std.specs.Prelude.{◌≡◌, IfOk};

use crate::text::Text;
use std::alloc::{AllocError, Global};

/// What a key of the index stands for, in the order of the bytes 1 to 9 that begin their words.
#[derive(Clone, Copy, Debug, PartialEq, Eq)]
pub enum Category {
    PackageDecl,
    TypeDecl,
    SuperRef,
    MethodDecl,
    MethodRef,
    ConstructorDecl,
    ConstructorRef,
    FieldDecl,
    Ref,
}

/// A key of the index: its category, and its text, whose fields are separated by `/`.
#[derive(Debug, Drop)]
pub struct Key {
    pub category: Category,
    pub text: Text,
}

impl Key {
    /// An equal key. Its only error is to be out of memory.
    pub fn copy(&self, alloc: Global) -> Result<Key, AllocError>
        ensures { IfOk result (λ k. k ≡ self.now) }
    {
        Ok(Key {
            category: self.category,
            text: self.text.copy(alloc)?,
        })
    }
}
