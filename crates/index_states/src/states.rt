//! What a state file says.
ghost use Rattle.std.specs.Prelude.{◌≡◌, length};

use crate::cell::Cell;

/// Whether a store is ready, and for each of its pairs the newest cell that counts. A store that isn't
/// ready holds none.
#[derive(Debug, Drop)]
pub struct States {
    pub ready: bool,
    pub cells: Vec<Option<Cell>>,
    ghost sized: { length cells.items ≡ 256 },
}
