//! A save as a whole: a cell's gate is closed, what is behind it written, and the gate opened again.
ghost use Rattle.std.specs.Prelude.{◌≡◌, ◌<◌, [], ◌∷◌, IsTrue, List, ℕ, length, take, Some, OnOk};
ghost use Rattle.java_model.specs.StateFile.Cells.{Cell, counting};
ghost use Rattle.jx_disk.specs.Disk.{LeavesOnly, CountsFault, Only};
ghost use Rattle.index_store.specs.Kept.{Acks, acked_as, kept_of, AllFit, AllSaved, Targets, Recovers};

use index_states::{close_cell, open_cell, write_cell, write_slot};
use jx_disk::{Disk, DiskFault};

/// Saves an image under a cell.
pub(crate) fn save_image<D: Disk>(
    disk: &mut D,
    pair: u8,
    side: u8,
    cell: &[u8; 255],
    image: &[u8],
) -> Result<(), DiskFault>
    requires { side < 2 }
    ensures any_moment { (acks : Acks) (says : Cell) → IsTrue (D.is_honest disk.old)
        → AllFit acks (D.may_leave disk.old) → Targets acks pair side says (acks pair)
        → counting (1 ∷ cell.now) ≡ Some says → says.size ≡ length image.now
        → LeavesOnly D.moment D.left_since disk.old disk.new
        (Recovers acks (D.may_leave disk.old) says.name (kept_of (acked_as side says image.now))) }
    ensures fits { (acks : Acks) (says : Cell) → IsTrue (D.is_honest disk.old)
        → AllFit acks (D.may_leave disk.old) → Targets acks pair side says (acks pair)
        → counting (1 ∷ cell.now) ≡ Some says → says.size ≡ length image.now
        → AllFit acks (D.may_leave disk.new) }
    ensures saved { (acks : Acks) (says : Cell) → IsTrue (D.is_honest disk.old)
        → AllFit acks (D.may_leave disk.old) → Targets acks pair side says (acks pair)
        → counting (1 ∷ cell.now) ≡ Some says → says.size ≡ length image.now
        → OnOk result (AllSaved acks pair (acked_as side says image.now) (D.may_leave disk.new)) }
    ensures stable { IsTrue (D.is_honest disk.old) → OnOk result (Only (D.seen disk.new) (D.may_leave disk.new)) }
    ensures honest { D.is_honest disk.new ≡ D.is_honest disk.old }
    ensures count { CountsFault result (D.faults disk.old) (D.faults disk.new) }
{
    close_cell(disk, pair, side)?;
    write_slot(disk, pair, side, image)?;
    write_cell(disk, pair, side, cell)?;
    open_cell(disk, pair, side)?;
    Ok(())
}

/// Marks a container as one that is to be indexed anew, under a cell.
pub(crate) fn save_mark<D: Disk>(
    disk: &mut D,
    pair: u8,
    side: u8,
    cell: &[u8; 255],
) -> Result<(), DiskFault>
    requires { side < 2 }
    ensures any_moment { (acks : Acks) (says : Cell) → IsTrue (D.is_honest disk.old)
        → AllFit acks (D.may_leave disk.old) → Targets acks pair side says (acks pair)
        → counting (1 ∷ cell.now) ≡ Some says → says.size ≡ 0
        → LeavesOnly D.moment D.left_since disk.old disk.new (Recovers acks (D.may_leave disk.old) says.name (kept_of (acked_as side says []))) }
    ensures fits { (acks : Acks) (says : Cell) → IsTrue (D.is_honest disk.old)
        → AllFit acks (D.may_leave disk.old) → Targets acks pair side says (acks pair)
        → counting (1 ∷ cell.now) ≡ Some says → says.size ≡ 0
        → AllFit acks (D.may_leave disk.new) }
    ensures saved { (acks : Acks) (says : Cell) → IsTrue (D.is_honest disk.old)
        → AllFit acks (D.may_leave disk.old) → Targets acks pair side says (acks pair)
        → counting (1 ∷ cell.now) ≡ Some says → says.size ≡ 0
        → OnOk result (AllSaved acks pair (acked_as side says []) (D.may_leave disk.new)) }
    ensures stable { IsTrue (D.is_honest disk.old) → OnOk result (Only (D.seen disk.new) (D.may_leave disk.new)) }
    ensures honest { D.is_honest disk.new ≡ D.is_honest disk.old }
    ensures count { CountsFault result (D.faults disk.old) (D.faults disk.new) }
{
    close_cell(disk, pair, side)?;
    write_cell(disk, pair, side, cell)?;
    open_cell(disk, pair, side)?;
    Ok(())
}
