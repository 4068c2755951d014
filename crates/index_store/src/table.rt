//! The table of a store: for each pair the cell that was acknowledged.
ghost use Rattle.std.specs.Prelude.{◌≡◌, ◌↔◌, ◌<◌, ◌≤◌, ℕ, length, get_or, None, IsTrue, IsSome, IsNone, IfSome, IfNone};
ghost use Rattle.index_store.specs.Table.{IsNamed};

use index_states::Cell;

/// For each pair the cell that was acknowledged.
#[derive(Debug, Drop)]
pub(crate) struct Table {
    pub entries: Vec<Option<Cell>>,
    ghost sized: { length entries.items ≡ 256 },
}

/// Whether an entry is that of a container.
fn is_named(entry: &Option<Cell>, name: &str) -> bool
    ensures { IsTrue result ↔ IsNamed entry.now name.now }
{
    match entry {
        Some(cell) => cell.name.is(name),
        None => false,
    }
}

/// The first pair that is held by a container.
pub(crate) fn find_held(table: &[Option<Cell>], name: &str) -> Option<u8>
    requires { length table.now ≤ 256 }
    ensures found { IfSome result (λ pair. (pair < length table.now) × IsNamed (get_or table.now pair None) name.now
        × ((before : ℕ) → before < pair → ¬ IsNamed (get_or table.now before None) name.now)) }
    ensures absent { IfNone result ((pair : ℕ) → pair < length table.now → ¬ IsNamed (get_or table.now pair None) name.now) }
{
    for (pair, entry) in table.iter().enumerate() {
        if is_named(entry, name) {
            return Some(pair as u8);
        }
    }
    None
}

/// The first pair that isn't held.
pub(crate) fn find_free(table: &[Option<Cell>]) -> Option<u8>
    requires { length table.now ≤ 256 }
    ensures found { IfSome result (λ pair. (pair < length table.now) × IsNone (get_or table.now pair None)
        × ((before : ℕ) → before < pair → IsSome (get_or table.now before None))) }
    ensures absent { IfNone result ((pair : ℕ) → pair < length table.now → IsSome (get_or table.now pair None)) }
{
    for (pair, entry) in table.iter().enumerate() {
        if entry.is_none() {
            return Some(pair as u8);
        }
    }
    None
}
