ghost use Rattle.std.specs.Prelude.{◌≡◌, ◌⊎◌, ℕ, Bool, ◌+◌, ◌^◌, ◌<◌, ◌≤◌, List, length, take, IsTrue, IfOk, OnOk};
ghost use Rattle.jx_disk.specs.Disk.{Image, SameFiles, window, written_over, TornWrite, TornCut, ChangesFile, Follows, Within, Only, Elapses, CountsFault};

use thiserror::Error;

/// A call of a disk has failed, and was counted as a fault.
#[derive(Clone, Copy, Debug, PartialEq, Eq, Drop, Error)]
#[error("the disk failed")]
pub struct DiskFault;

/// Files by number. A call that fails may have had any part of its effect.
pub trait Disk {
    /// What a read gives.
    ghost seen: { Self → Image };

    /// What a crash at this moment may leave.
    ghost may_leave: { Self → Image → Type 0 };

    /// This moment, as a number that never falls.
    ghost moment: { Self → ℕ };

    /// What a crash at some moment from that one on may have left, during a call or between two.
    ghost left_since: { Self → ℕ → Image → Type 0 };

    /// The disk keeps what it says of its bytes.
    ghost is_honest: { Self → Bool };

    /// How many calls have failed.
    ghost faults: { Self → ℕ };

    /// The length of a file in bytes.
    fn len(&mut self, file: u32) -> Result<u64, DiskFault>
        ensures length { IsTrue (is_honest self.old) → IfOk result (λ n. n ≡ length (seen self.old file)) }
        ensures same { SameFiles (seen self.old) (seen self.new) }
        ensures crash { Within (may_leave self.old) (may_leave self.new) }
        ensures time { Elapses (moment self.old) (moment self.new) (left_since self.old) (left_since self.new) (may_leave self.new) }
        ensures honest { is_honest self.new ≡ is_honest self.old }
        ensures count { CountsFault result (faults self.old) (faults self.new) };

    /// Puts a file's bytes from a place on into the front of the buffer, and answers how many: fewer than the buffer
    /// holds only where the file ends.
    fn read_at(&mut self, file: u32, at: u64, buf: &mut [u8]) -> Result<usize, DiskFault>
        ensures within { IfOk result (λ n. n ≤ length buf.new) }
        ensures read { IsTrue (is_honest self.old) → IfOk result (λ n. take n buf.new ≡ window at (length buf.old) (seen self.old file)) }
        ensures same { SameFiles (seen self.old) (seen self.new) }
        ensures crash { Within (may_leave self.old) (may_leave self.new) }
        ensures time { Elapses (moment self.old) (moment self.new) (left_since self.old) (left_since self.new) (may_leave self.new) }
        ensures honest { is_honest self.new ≡ is_honest self.old }
        ensures count { CountsFault result (faults self.old) (faults self.new) };

    /// Writes the piece at a place of a file, and lengthens the file where needed.
    fn write_at(&mut self, file: u32, at: u64, piece: &[u8]) -> Result<(), DiskFault>
        requires { at + length piece.now < 2 ^ 64 }
        ensures written { IsTrue (is_honest self.old) → OnOk result (seen self.new file ≡ written_over 0 at piece.now (seen self.old file)) }
        ensures torn { ChangesFile file (TornWrite at (length piece.now)) (seen self.old) (seen self.new) }
        ensures crash { Follows (ChangesFile file (TornWrite at (length piece.now))) (may_leave self.old) (may_leave self.new) }
        ensures time { Elapses (moment self.old) (moment self.new) (left_since self.old) (left_since self.new) (may_leave self.new) }
        ensures honest { is_honest self.new ≡ is_honest self.old }
        ensures count { CountsFault result (faults self.old) (faults self.new) };

    /// Shortens a file to a length where it is longer.
    fn cut(&mut self, file: u32, len: u64) -> Result<(), DiskFault>
        ensures shortened { IsTrue (is_honest self.old) → OnOk result (seen self.new file ≡ take len (seen self.old file)) }
        ensures torn { ChangesFile file (TornCut len) (seen self.old) (seen self.new) }
        ensures crash { Follows (ChangesFile file (TornCut len)) (may_leave self.old) (may_leave self.new) }
        ensures time { Elapses (moment self.old) (moment self.new) (left_since self.old) (left_since self.new) (may_leave self.new) }
        ensures honest { is_honest self.new ≡ is_honest self.old }
        ensures count { CountsFault result (faults self.old) (faults self.new) };

    /// Makes all files stable: after it a crash leaves what a read gives.
    fn sync(&mut self) -> Result<(), DiskFault>
        ensures stable { IsTrue (is_honest self.old) → OnOk result (Only (seen self.old) (may_leave self.new)) }
        ensures same { SameFiles (seen self.old) (seen self.new) }
        ensures crash { Within (may_leave self.old) (may_leave self.new) }
        ensures time { Elapses (moment self.old) (moment self.new) (left_since self.old) (left_since self.new) (may_leave self.new) }
        ensures honest { is_honest self.new ≡ is_honest self.old }
        ensures count { CountsFault result (faults self.old) (faults self.new) };

    /// The disk as it reads is one of the outcomes of a crash.
    ghost seen_may_stay: { (disk : Self) → may_leave disk (seen disk) };

    /// This moment is one of those since an earlier one.
    ghost counts_now: { (disk : Self) (t : ℕ) (image : Image) → t ≤ moment disk → may_leave disk image → left_since disk t image };

    /// Since this moment there is no other.
    ghost only_now: { (disk : Self) (image : Image) → left_since disk (moment disk) image → may_leave disk image };
}
