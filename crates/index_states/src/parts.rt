//! The four parts of a save, each of at most four calls of the disk.
ghost use Rattle.std.specs.Prelude.{◌≡◌, ◌≢◌, ◌+◌, ◌<◌, [], ◌∷◌, IsTrue, OnOk, OnErr, slice_index, length};
ghost use Rattle.java_model.specs.StateFile.Cells.{cell_at, state_length};
ghost use Rattle.java_model.specs.StateFile.Recovered.{slot};
ghost use Rattle.jx_disk.specs.Disk.{SameFiles, Only, LeavesOnly, CountsFault, ChangesFile, TornWrite, written_over};
ghost use Rattle.index_states.specs.Parts.{After, ClosesGate, ChangesByte, ChangesOnly};

use crate::layout::{CLOSED, OPEN, STATE_FILE};
use jx_disk::{Disk, DiskFault};

/// Where a cell begins in the state file.
fn cell_at(pair: u8, side: u8) -> u64
    requires { side < 2 }
    ensures value { result ≡ cell_at pair side }
    ensures within { result < state_length }
{
    512 * pair as u64 + 256 * side as u64
}

/// Closes the gate of a cell, where it is open.
pub fn close_cell<D: Disk>(disk: &mut D, pair: u8, side: u8) -> Result<(), DiskFault>
    requires { side < 2 }
    ensures closed { IsTrue (D.is_honest disk.old) → OnOk result (slice_index (D.seen disk.new 1) (cell_at pair side) ≢ 1) }
    ensures stable { IsTrue (D.is_honest disk.old) → OnOk result (Only (D.seen disk.new) (D.may_leave disk.new)) }
    ensures any_moment { IsTrue (D.is_honest disk.old)
        → LeavesOnly D.moment D.left_since disk.old disk.new (After (D.may_leave disk.old) (ClosesGate (cell_at pair side))) }
    ensures honest { D.is_honest disk.new ≡ D.is_honest disk.old }
    ensures count { CountsFault result (D.faults disk.old) (D.faults disk.new) }
{
    disk.sync()?;
    let gate = cell_at(pair, side);
    let mut byte = [CLOSED];
    let read = disk.read_at(STATE_FILE, gate, &mut byte)?;
    if read == 1 && byte[0] == OPEN {
        disk.write_at(STATE_FILE, gate, &[CLOSED])?;
        disk.sync()?;
    }
    Ok(())
}

/// Puts an image into the slot of a cell.
pub fn write_slot<D: Disk>(disk: &mut D, pair: u8, side: u8, image: &[u8]) -> Result<(), DiskFault>
    requires { side < 2 }
    ensures written { IsTrue (D.is_honest disk.old) → OnOk result (D.seen disk.new (slot pair side) ≡ image.now) }
    ensures others { ChangesOnly (slot pair side) (D.seen disk.old) (D.seen disk.new) }
    ensures stable { IsTrue (D.is_honest disk.old) → OnOk result (Only (D.seen disk.new) (D.may_leave disk.new)) }
    ensures any_moment { LeavesOnly D.moment D.left_since disk.old disk.new (After (D.may_leave disk.old) (ChangesOnly (slot pair side))) }
    ensures honest { D.is_honest disk.new ≡ D.is_honest disk.old }
    ensures count { CountsFault result (D.faults disk.old) (D.faults disk.new) }
{
    let file = slot(pair, side);
    disk.cut(file, 0)?;
    disk.write_at(file, 0, image)?;
    disk.sync()?;
    Ok(())
}

/// Writes the bytes of a cell after its gate.
pub fn write_cell<D: Disk>(
    disk: &mut D,
    pair: u8,
    side: u8,
    cell: &[u8; 255],
) -> Result<(), DiskFault>
    requires { side < 2 }
    ensures written { IsTrue (D.is_honest disk.old)
        → OnOk result (D.seen disk.new 1 ≡ written_over 0 (cell_at pair side + 1) cell.now (D.seen disk.old 1)) }
    ensures others { ChangesFile 1 (TornWrite (cell_at pair side + 1) 255) (D.seen disk.old) (D.seen disk.new) }
    ensures stable { IsTrue (D.is_honest disk.old) → OnOk result (Only (D.seen disk.new) (D.may_leave disk.new)) }
    ensures any_moment { LeavesOnly D.moment D.left_since disk.old disk.new
        (After (D.may_leave disk.old) (ChangesFile 1 (TornWrite (cell_at pair side + 1) 255))) }
    ensures honest { D.is_honest disk.new ≡ D.is_honest disk.old }
    ensures count { CountsFault result (D.faults disk.old) (D.faults disk.new) }
{
    disk.write_at(STATE_FILE, cell_at(pair, side) + 1, cell)?;
    disk.sync()?;
    Ok(())
}

/// Opens the gate of a cell.
pub fn open_cell<D: Disk>(disk: &mut D, pair: u8, side: u8) -> Result<(), DiskFault>
    requires { side < 2 }
    ensures written { IsTrue (D.is_honest disk.old)
        → OnOk result (D.seen disk.new 1 ≡ written_over 0 (cell_at pair side) (1 ∷ []) (D.seen disk.old 1)) }
    ensures others { ChangesByte (cell_at pair side) (D.seen disk.old) (D.seen disk.new) }
    ensures stable { IsTrue (D.is_honest disk.old) → OnOk result (Only (D.seen disk.new) (D.may_leave disk.new)) }
    ensures any_moment { LeavesOnly D.moment D.left_since disk.old disk.new (After (D.may_leave disk.old) (ChangesByte (cell_at pair side))) }
    ensures honest { D.is_honest disk.new ≡ D.is_honest disk.old }
    ensures count { CountsFault result (D.faults disk.old) (D.faults disk.new) }
{
    disk.write_at(STATE_FILE, cell_at(pair, side), &[OPEN])?;
    disk.sync()?;
    Ok(())
}

/// The file that has the image of a cell.
pub(crate) fn slot(pair: u8, side: u8) -> u32
    ensures { result ≡ slot pair side }
{
    2 + 2 * pair as u32 + side as u32
}
