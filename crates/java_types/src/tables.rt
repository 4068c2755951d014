//! Numbers by keys.

ghost use Rattle.std.specs.Prelude.{◌≡◌, ◌+◌, Some, None, cond, length, nat_eq, true, IfOk, OnOk};
ghost use Rattle.std.specs.Option.{option_and_then};
ghost use Rattle.indexmap.specs.IndexMap.{get, IsEmpty};
ghost use Rattle.java_types.specs.Tables.{has_key, is_keyed, first_from, AreLinked};

use indexmap::IndexMap;
use java_tree::Items;
use std::alloc::{AllocError, Global};
use std::marker::Model;

/// A table from keys to the numbers that have them, by the keys of the numbers in order.
#[derive(Debug, Drop)]
pub struct Table {
    keys: Items<Option<u64>>,
    first: IndexMap<u64, u64>,
    next: Items<Option<u64>>,
}

impl Model for Table {
    ghost use Rattle.std.specs.Prelude.{nat_eq};
    ghost use Rattle.indexmap.specs.IndexMap.{get};
    ghost use Rattle.java_types.specs.Tables.{Keys, AreLinked};

    ghost Value = { Keys };

    ghost view = { λ t. t.keys };

    ghost invariant = { λ t. AreLinked t.keys 0 (get nat_eq t.first) t.next };
}

fn first_of(first: &IndexMap<u64, u64>, key: Option<u64>) -> Option<u64>
    ensures { result ≡ option_and_then (get nat_eq first.now) key }
{
    match key {
        Some(key) => first.get(&key).copied(),
        None => None,
    }
}

/// Notes the number of a key as its first.
fn note(first: &mut IndexMap<u64, u64>, key: Option<u64>, number: u64) -> Result<(), AllocError>
    ensures { OnOk result ((k : _) → get nat_eq first.new k ≡ cond (has_key k key) (Some number) (get nat_eq first.old k)) }
{
    if let Some(key) = key {
        first.insert(key, number)?;
    }
    Ok(())
}

/// Links each number to the next with its key, the greatest number first.
fn link(
    keys: &[Option<u64>],
    first: &mut IndexMap<u64, u64>,
    next: &mut Items<Option<u64>>,
) -> Result<(), AllocError>
    requires none { IsEmpty first.old }
    requires unlinked { length next.old ≡ 0 }
    ensures { OnOk result (AreLinked keys.now 0 (get nat_eq first.new) next.new) }
{
    let mut left = keys.len();
    while left > 0 {
        left -= 1;
        let key = keys[left];
        next.push(first_of(first, key))?;
        note(first, key, left as u64)?;
    }
    Ok(())
}

impl Table {
    /// The table of these keys.
    pub(crate) fn of(alloc: Global, keys: Items<Option<u64>>) -> Result<Table, AllocError>
        ensures { IfOk result (λ t. t ≡ keys) }
    {
        let mut first = IndexMap::new(alloc);
        let mut next = Items::new(alloc);
        link(keys.as_slice(), &mut first, &mut next)?;
        Ok(Table { keys, first, next })
    }

    /// The first number with a key.
    pub(crate) fn first(&self, key: u64) -> Option<u64>
        ensures { result ≡ first_from self.now key 0 }
    {
        self.first.get(&key).copied()
    }

    /// The number after another with its key.
    pub(crate) fn after(&self, key: u64, number: u64) -> Option<u64>
        requires { is_keyed self.now key number ≡ true }
        ensures { result ≡ first_from self.now key (number + 1) }
    {
        self.next.as_slice()[self.keys.len() - 1 - number as usize]
    }
}
