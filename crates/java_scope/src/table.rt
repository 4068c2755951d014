//! Entries, and the last place of each key.

ghost use Rattle.std.specs.Prelude.{◌≡◌, [], ◌∷◌, ◌++◌, Some, None, cond, false, true, nat_eq, IsSome, OnOk, OnErr};
ghost use Rattle.std.specs.Option.{option_and_then, option_map_or};
ghost use Rattle.indexmap.specs.IndexMap.{get};
ghost use Rattle.java_scope.specs.Linked.{has_key};

use crate::bounds::key_of;
use crate::entry::Entry;
use indexmap::IndexMap;
use java_tree::Items;
use std::alloc::AllocError;

/// The last place of a key.
pub(crate) fn last_of(last: &IndexMap<u64, u64>, key: Option<u64>) -> Option<u64>
    ensures { result ≡ option_and_then (get nat_eq last.now) key }
{
    match key {
        Some(key) => last.get(&key).copied(),
        None => None,
    }
}

/// Notes the place of a key as its last.
pub(crate) fn note(
    last: &mut IndexMap<u64, u64>,
    key: Option<u64>,
    place: u64,
) -> Result<(), AllocError>
    ensures ok { OnOk result ((k : _) → get nat_eq last.new k ≡ cond (option_map_or (nat_eq k) key false) (Some place) (get nat_eq last.old k)) }
    ensures err { OnErr result ((k : _) → get nat_eq last.new k ≡ get nat_eq last.old k) }
{
    if let Some(key) = key {
        last.insert(key, place)?;
    }
    Ok(())
}

/// Takes the last place of a key back, to the one before.
fn take_back_to(last: &mut IndexMap<u64, u64>, key: u64, before: u64)
    requires { IsSome (get nat_eq last.old key) }
    ensures { (k : _) → get nat_eq last.new k ≡ cond (nat_eq k key) (Some before) (get nat_eq last.old k) }
{
    if let Some(place) = last.get_mut(&key) {
        *place = before;
    }
}

fn take_out(last: &mut IndexMap<u64, u64>, key: u64)
    ensures { (k : _) → get nat_eq last.new k ≡ cond (nat_eq k key) None (get nat_eq last.old k) }
{
    let _place = last.swap_remove(&key);
}

/// Takes the last place of a key back, to the one before if there is one.
fn take_back(last: &mut IndexMap<u64, u64>, key: Option<u64>, before: Option<u64>)
    requires { (k : _) → key ≡ Some k → IsSome (get nat_eq last.old k) }
    ensures { (k : _) → get nat_eq last.new k ≡ cond (option_map_or (nat_eq k) key false) before (get nat_eq last.old k) }
{
    if let Some(key) = key {
        match before {
            Some(before) => take_back_to(last, key, before),
            None => take_out(last, key),
        }
    }
}

/// Takes the last place of the key of a bound back, which is left.
pub(crate) fn forget(last: &mut IndexMap<u64, u64>, popped: Option<Entry>)
    requires { (e : _) → popped ≡ Some e → (k : _) → has_key k e.bound ≡ true → IsSome (get nat_eq last.old k) }
    ensures none { popped ≡ None → (k : _) → get nat_eq last.new k ≡ get nat_eq last.old k }
    ensures some { (e : _) → popped ≡ Some e → (k : _) → get nat_eq last.new k ≡ cond (has_key k e.bound) e.before (get nat_eq last.old k) }
{
    if let Some(entry) = popped {
        take_back(last, key_of(&entry.bound), entry.before);
    }
}

/// Takes the last entry off.
pub(crate) fn take_off(entries: &mut Items<Entry>)
    ensures { (es : _) (e : _) → entries.old ≡ es ++ e ∷ [] → entries.new ≡ es }
{
    entries.pop();
}
