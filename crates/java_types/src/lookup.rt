//! The first of what has a key.

ghost use Rattle.std.specs.Prelude.{◌≡◌, Bool, position, length};
ghost use Rattle.java_types.specs.Tables.{HaveKey, Tests};

use crate::tables::Table;

/// The first of the entries that fit, all of which have this key. No entry with another key is looked at.
pub(crate) fn first_with_key<T, F: Fn(&T) -> bool>(
    entries: &[T],
    table: &Table,
    key: u64,
    fits: F,
) -> Option<u64>
    requires callable { F.IsAlwaysCallable fits }
    requires of_entries { length table.now ≡ length entries.now }
    ensures { (test : T → Bool) → Tests F.Fn fits test → HaveKey test entries.now table.now key → result ≡ position test entries.now }
{
    let mut next = table.first(key);
    while let Some(number) = next {
        if fits(&entries[number as usize]) {
            return Some(number);
        }
        next = table.after(key, number);
    }
    None
}
