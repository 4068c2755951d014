//! Loads the state file of a store, and reads the images that its cells have.
ghost use Rattle.std.specs.Prelude.{◌≡◌, ◌≤◌, length, take, IsTrue, IfOk};
ghost use Rattle.java_model.specs.StateFile.Recovered.{is_ready, slot};
ghost use Rattle.jx_disk.specs.Disk.{CountsFault};
ghost use Rattle.index_states.specs.Loaded.{Tells};
ghost use Rattle.index_states.specs.Reads.{ReadsOnly, CountsState};

use crate::fault::StateFault;
use crate::layout::{READY, READY_FILE, STATE_FILE, STATE_LENGTH};
use crate::parts::slot;
use crate::readiness::zeros;
use crate::reading::{newest_cells, no_cells};
use crate::states::States;
use jx_disk::{Disk, DiskFault};
use std::alloc::Global;

/// Whether the ready file says ready, and the state file has its length.
fn is_ready<D: Disk>(disk: &mut D) -> Result<bool, DiskFault>
    ensures ready { IsTrue (D.is_honest disk.old) → IfOk result (λ ready. ready ≡ is_ready (D.seen disk.old)) }
    ensures reads { ReadsOnly D.seen D.may_leave D.moment D.left_since D.is_honest disk.old disk.new }
    ensures count { CountsFault result (D.faults disk.old) (D.faults disk.new) }
{
    let mut byte = [0];
    let read = disk.read_at(READY_FILE, 0, &mut byte)?;
    let length = disk.len(STATE_FILE)?;
    Ok(read == 1 && byte[0] == READY && length == STATE_LENGTH as u64)
}

/// Reads the state file of a store: what is ready there, and the newest counting cell of each pair.
/// Nothing is written.
pub fn load<D: Disk>(disk: &mut D, alloc: Global) -> Result<States, StateFault>
    ensures told { IsTrue (D.is_honest disk.old) → IfOk result (Tells (D.seen disk.old)) }
    ensures reads { ReadsOnly D.seen D.may_leave D.moment D.left_since D.is_honest disk.old disk.new }
    ensures count { CountsState result (D.faults disk.old) (D.faults disk.new) }
{
    let mut state = zeros(alloc, STATE_LENGTH)?;
    if !is_ready(disk)? {
        return Ok(States {
            ready: false,
            cells: no_cells(alloc)?,
        });
    }
    disk.read_at(STATE_FILE, 0, &mut state)?;
    Ok(States {
        ready: true,
        cells: newest_cells(alloc, &state)?,
    })
}

/// Reads the bytes of a cell's slot from its beginning on, and answers how many: fewer than the buffer holds
/// only where the slot ends.
pub fn read_slot<D: Disk>(
    disk: &mut D,
    pair: u8,
    side: u8,
    buf: &mut [u8],
) -> Result<usize, DiskFault>
    ensures within { IfOk result (λ n. n ≤ length buf.new) }
    ensures read { IsTrue (D.is_honest disk.old) → IfOk result (λ n. take n buf.new ≡ take (length buf.old) (D.seen disk.old (slot pair side))) }
    ensures reads { ReadsOnly D.seen D.may_leave D.moment D.left_since D.is_honest disk.old disk.new }
    ensures count { CountsFault result (D.faults disk.old) (D.faults disk.new) }
{
    let read = disk.read_at(slot(pair, side), 0, buf)?;
    Ok(read)
}
