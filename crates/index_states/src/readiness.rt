//! Makes a store ready that isn't: its state file is zeros before its ready byte is written.
ghost use Rattle.std.specs.Prelude.{◌≡◌, ◌≢◌, ◌∷◌, [], IsTrue, IfOk, OnOk, OnErr, IsErrOf, slice_index, length, false};
ghost use Rattle.java_model.specs.StateFile.Cells.{state_length};
ghost use Rattle.java_model.specs.StateFile.Recovered.{is_ready};
ghost use Rattle.jx_io.specs.Stream.{CountedOne};
ghost use Rattle.jx_disk.specs.Disk.{SameFiles, Only, LeavesOnly, CountsFault, written_over};
ghost use Rattle.index_states.specs.Parts.{After, ChangesOnly};
ghost use Rattle.index_states.specs.Readiness.{AreZeros, IsFresh, ReadyOnlyFresh};

use crate::fault::StateFault;
use crate::layout::{READY, READY_FILE, STATE_FILE, STATE_LENGTH, UNREADY};
use jx_disk::{Disk, DiskFault};
use std::alloc::{AllocError, Global};

/// So many zeros.
pub(crate) fn zeros(alloc: Global, count: usize) -> Result<Vec<u8>, AllocError>
    ensures { IfOk result (λ bytes. AreZeros count bytes.items) }
{
    Vec::from_elem(alloc, 0, count)
}

/// Writes the first byte of the ready file.
fn write_ready<D: Disk>(disk: &mut D, byte: u8) -> Result<(), DiskFault>
    ensures written { IsTrue (D.is_honest disk.old) → OnOk result (D.seen disk.new 0 ≡ written_over 0 0 (byte ∷ []) (D.seen disk.old 0)) }
    ensures others { ChangesOnly 0 (D.seen disk.old) (D.seen disk.new) }
    ensures stable { IsTrue (D.is_honest disk.old) → OnOk result (Only (D.seen disk.new) (D.may_leave disk.new)) }
    ensures any_moment { LeavesOnly D.moment D.left_since disk.old disk.new (After (D.may_leave disk.old) (ChangesOnly 0)) }
    ensures honest { D.is_honest disk.new ≡ D.is_honest disk.old }
    ensures count { CountsFault result (D.faults disk.old) (D.faults disk.new) }
{
    disk.write_at(READY_FILE, 0, &[byte])?;
    disk.sync()?;
    Ok(())
}

/// Writes the state file anew.
fn write_state<D: Disk>(disk: &mut D, state: &[u8]) -> Result<(), DiskFault>
    ensures written { IsTrue (D.is_honest disk.old) → OnOk result (D.seen disk.new 1 ≡ state.now) }
    ensures others { ChangesOnly 1 (D.seen disk.old) (D.seen disk.new) }
    ensures stable { IsTrue (D.is_honest disk.old) → OnOk result (Only (D.seen disk.new) (D.may_leave disk.new)) }
    ensures any_moment { LeavesOnly D.moment D.left_since disk.old disk.new (After (D.may_leave disk.old) (ChangesOnly 1)) }
    ensures honest { D.is_honest disk.new ≡ D.is_honest disk.old }
    ensures count { CountsFault result (D.faults disk.old) (D.faults disk.new) }
{
    disk.cut(STATE_FILE, 0)?;
    disk.write_at(STATE_FILE, 0, state)?;
    disk.sync()?;
    Ok(())
}

/// Takes the ready byte back, where it stands; a byte that doesn't say ready stays as it is.
fn withdraw_ready<D: Disk>(disk: &mut D) -> Result<(), DiskFault>
    ensures withdrawn { IsTrue (D.is_honest disk.old) → OnOk result (slice_index (D.seen disk.new 0) 0 ≢ 1) }
    ensures others { ChangesOnly 0 (D.seen disk.old) (D.seen disk.new) }
    ensures stable { IsTrue (D.is_honest disk.old) → Only (D.seen disk.old) (D.may_leave disk.old)
        → OnOk result (Only (D.seen disk.new) (D.may_leave disk.new)) }
    ensures any_moment { IsTrue (D.is_honest disk.old) → Only (D.seen disk.old) (D.may_leave disk.old) → is_ready (D.seen disk.old) ≡ false
        → LeavesOnly D.moment D.left_since disk.old disk.new (λ image. is_ready image ≡ false) }
    ensures honest { D.is_honest disk.new ≡ D.is_honest disk.old }
    ensures count { CountsFault result (D.faults disk.old) (D.faults disk.new) }
{
    let mut byte = [UNREADY];
    let read = disk.read_at(READY_FILE, 0, &mut byte)?;
    if read == 1 && byte[0] == READY {
        write_ready(disk, UNREADY)?;
    }
    Ok(())
}

/// Makes a store ready that isn't, on a disk that was synced.
pub fn make_ready<D: Disk>(disk: &mut D, alloc: Global) -> Result<(), StateFault>
    ensures made { IsTrue (D.is_honest disk.old) → OnOk result (IsFresh (D.seen disk.new)) }
    ensures stable { IsTrue (D.is_honest disk.old) → OnOk result (Only (D.seen disk.new) (D.may_leave disk.new)) }
    ensures any_moment { IsTrue (D.is_honest disk.old) → Only (D.seen disk.old) (D.may_leave disk.old) → is_ready (D.seen disk.old) ≡ false
        → LeavesOnly D.moment D.left_since disk.old disk.new ReadyOnlyFresh }
    ensures cause { IsErrOf result StateFault.Disk → CountedOne (D.faults disk.old) (D.faults disk.new) }
    ensures quiet { OnOk result (D.faults disk.new ≡ D.faults disk.old) }
    ensures memory { IsErrOf result StateFault.NoMemory → disk.new ≡ disk.old }
    ensures honest { D.is_honest disk.new ≡ D.is_honest disk.old }
{
    let state = zeros(alloc, STATE_LENGTH)?;
    withdraw_ready(disk)?;
    write_state(disk, &state)?;
    write_ready(disk, READY)?;
    Ok(())
}
