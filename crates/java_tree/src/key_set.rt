ghost use Rattle.std.specs.Prelude.{◌≡◌, [], IsTrue, IfOk};
ghost use Rattle.java_tree.specs.Keys.{have_rising_words};

use crate::key::Key;
use sqlite_items::Items;
use std::alloc::{AllocError, Global};

/// A set of keys, strictly rising by the bytes of their words.
#[derive(Debug, Drop)]
pub struct KeySet {
    pub keys: Items<Key>,
    pub ghost rising: { IsTrue (have_rising_words keys) },
}

impl KeySet {
    /// The set without keys.
    pub fn empty(alloc: Global) -> KeySet
        ensures { result.keys ≡ [] }
    {
        KeySet {
            keys: Items::new(alloc),
        }
    }

    /// An equal set. Its only error is to be out of memory.
    pub fn copy(&self, alloc: Global) -> Result<KeySet, AllocError>
        ensures { IfOk result (λ s. s.keys ≡ self.now.keys) }
    {
        let keys = copy_keys(alloc, self.keys.as_slice())?;
        Ok(KeySet { keys })
    }
}

fn copy_keys(alloc: Global, keys: &[Key]) -> Result<Items<Key>, AllocError>
    ensures { IfOk result (λ copies. copies ≡ keys.now) }
{
    let mut copies = Items::new(alloc);
    for key in keys {
        copies.push(key.copy(alloc)?)?;
    }
    Ok(copies)
}
