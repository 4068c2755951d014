//! Where the next cell of a container is to be written.
ghost use Rattle.std.specs.Prelude.{◌≡◌, ◌+◌, ◌-◌, ◌<◌, ◌≤◌, length, IsSome, IfOk, IsErrOf};
ghost use Rattle.index_store.specs.Kept.{Acks};
ghost use Rattle.index_store.specs.Table.{IsTable};
ghost use Rattle.index_store.specs.Causes.{Chooses, Follows};

use crate::fault::SaveFault;
use crate::table::{find_free, find_held};
use index_states::{Cell, LAST_GENERATION, PAIRS};

/// A cell that is to be written, and the generation that it is to say.
#[derive(Clone, Copy, Debug, Drop)]
pub(crate) struct Place {
    pub pair: u8,
    pub side: u8,
    pub generation: u64,
}

/// The side of a pair that isn't this one.
fn other_side(side: u8) -> u8
    ensures two { result < 2 }
    ensures other { side < 2 → result ≡ 1 - side }
{
    if side == 0 { 1 } else { 0 }
}

/// The place of the cell after this one.
fn place_after(pair: u8, entry: &Option<Cell>) -> Result<Place, SaveFault>
    requires { IsSome entry.now }
    ensures follows { Follows pair entry.now result }
    ensures two { IfOk result (λ place. place.side < 2) }
    ensures own { ¬ IsErrOf result SaveFault.Disk }
{
    match entry {
        Some(cell) if cell.generation < LAST_GENERATION => Ok(Place {
            pair,
            side: other_side(cell.side),
            generation: cell.generation + 1,
        }),
        Some(_) => Err(SaveFault::Worn),
        None => unreachable!(),
    }
}

/// The place of a container's next cell.
pub(crate) fn next_place(table: &[Option<Cell>], name: &str) -> Result<Place, SaveFault>
    requires { length table.now ≡ 256 }
    ensures chosen { (acks : Acks) → IsTable acks table.now → Chooses acks name.now result }
    ensures two { IfOk result (λ place. place.side < 2) }
    ensures own { ¬ IsErrOf result SaveFault.Disk }
{
    if let Some(pair) = find_held(table, name) {
        return place_after(pair, &table[pair as usize]);
    }
    match find_free(table) {
        Some(pair) => Ok(Place {
            pair,
            side: 0,
            generation: 1,
        }),
        None => Err(SaveFault::Full(PAIRS as u64)),
    }
}
