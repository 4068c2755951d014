ghost use Rattle.std.specs.Prelude.{◌≡◌, ◌⊎◌, ◌↔◌, ◌≤◌, ◌<◌, ◌+◌, ◌-◌, ◌^◌, min, [], ◌∷◌, ◌++◌, ℕ, true, length, take, IsTrue, IsErr, IfOk, OnOk, OnErr};
ghost use Rattle.jx_io.specs.Stream.{next_count, CountedOne};
ghost use Rattle.jx_disk.specs.Disk.{Image, SameFiles, window, written_over, TornWrite, TornCut, ChangesFile, Follows, Within, Only, Elapses, CountsFault};
ghost use Rattle.jx_disk.specs.Calls.{Quiet, Written, Shortened, Synced, crash_after};
ghost use Rattle.jx_disk.specs.Crash.{MayInterrupt};
ghost use Rattle.jx_disk.specs.Told.{told, call_told, total_written, all_in_range, bytes_in, Shows};

use crate::crash::files_left;
use crate::record::{Call, FileBytes, Record, replay};
use crate::{Disk, DiskFault};
use std::alloc::{AllocError, Global};

/// A disk in memory, which records its calls, and whose listed calls fail.
#[derive(Debug, Drop)]
pub struct MemDisk {
    opening: Vec<FileBytes>,
    record: Record,
    failing: Vec<u64>,
    made: u64,
    faults: u64,
}

impl MemDisk {
    ghost use Rattle.jx_disk.specs.Memory.{opening_of, calls_of, seen_of, may_leave_of, left_since_of, Passes, FailsNext, IsSpent, IsFull, Looked, Settled, Makes};

    /// A disk without files, with room for so many calls and written bytes, whose calls of the listed numbers,
    /// counted from 1, fail.
    pub fn new(
        alloc: Global,
        calls: usize,
        bytes: usize,
        failing: Vec<u64>,
    ) -> Result<MemDisk, AllocError>
        ensures empty { IfOk result (λ disk. SameFiles (bytes_in []) (seen_of disk)) }
        ensures unused { IfOk result (λ disk. (calls_of disk ≡ []) × (disk.made ≡ 0) × (disk.faults ≡ 0)) }
        ensures failing { IfOk result (λ disk. disk.failing.items ≡ failing.items) }
        ensures room { IfOk result (λ disk. (disk.record.call_room ≡ calls) × (disk.record.byte_room ≡ bytes)) }
    {
        let empty = Record::new(alloc, calls, bytes)?;
        Ok(MemDisk {
            opening: Vec::new(alloc),
            record: empty,
            failing,
            made: 0,
            faults: 0,
        })
    }

    /// How many calls have failed.
    pub fn faults(&self) -> u64
        ensures { result ≡ self.now.faults }
    {
        self.faults
    }

    /// How many calls were made.
    pub fn made(&self) -> u64
        ensures { result ≡ self.now.made }
    {
        self.made
    }

    /// One image of a crash during the call after so many, or now where no call is after: what is pending stands as
    /// written, or each byte of it is the given one. It is a disk with the same room anew, none of whose calls fail.
    /// Its only error is to be out of memory.
    pub fn crash(&self, alloc: Global, calls: u64, fill: Option<u8>) -> Result<MemDisk, AllocError>
        requires { calls ≤ self.now.made }
        ensures image { IfOk result (λ disk. SameFiles (crash_after (calls_of self.now) fill calls (opening_of self.now)) (seen_of disk)) }
        ensures possible { IfOk result (λ disk. MayInterrupt (opening_of self.now) (calls_of self.now) calls (seen_of disk)) }
        ensures unused { IfOk result (λ disk. (calls_of disk ≡ []) × (disk.failing.items ≡ []) × (disk.made ≡ 0) × (disk.faults ≡ 0)) }
        ensures room { IfOk result (λ disk. (disk.record.call_room ≡ self.now.record.call_room) × (disk.record.byte_room
            ≡ self.now.record.byte_room)) }
    {
        let files = files_left(alloc, self.opening.as_slice(), &self.record, fill, calls)?;
        let empty = Record::new(alloc, self.record.call_room, self.record.byte_room)?;
        Ok(MemDisk {
            opening: files,
            record: empty,
            failing: Vec::new(alloc),
            made: 0,
            faults: 0,
        })
    }

    /// Counts a call, and tells whether it is one of those that fail.
    fn begin(&mut self) -> bool
        ensures fails { IsTrue result ↔ FailsNext self.old }
        ensures counts { self.new ≡ record self.old { made = next_count self.old.made } }
    {
        self.made = self.made.saturating_add(1);
        self.failing.contains(&self.made)
    }

    /// Counts a fault, which the caller answers, and records its call where there is room.
    fn fail(&mut self) -> DiskFault
        ensures looked { Looked self.old self.new }
        ensures faults { CountedOne self.old.faults self.new.faults }
        ensures never_falls { self.old.faults ≤ self.new.faults }
        ensures made { self.new.made ≡ self.old.made }
        ensures settled { Settled self.old self.new }
    {
        self.record.note_quiet();
        self.faults = self.faults.saturating_add(1);
        DiskFault
    }

    /// Makes a call that reads.
    fn look(&mut self) -> Result<(), DiskFault>
        ensures makes { Makes Quiet (IsSpent self.old) result self.old self.new }
        ensures same { SameFiles (seen_of self.old) (seen_of self.new) }
        ensures crash { Within (may_leave_of self.old) (may_leave_of self.new) }
        ensures time { Passes self.old self.new }
        ensures count { CountsFault result self.old.faults self.new.faults }
    {
        self.change(Call::Read)?;
        Ok(())
    }

    /// Makes a call that writes nothing.
    fn change(&mut self, call: Call) -> Result<(), DiskFault>
        requires { (total_written (call ∷ []) ≡ 0) × IsTrue (all_in_range (call ∷ [])) }
        ensures makes { Makes (call_told call []) (IsSpent self.old) result self.old self.new }
        ensures count { CountsFault result self.old.faults self.new.faults }
    {
        if self.begin() {
            return Err(self.fail());
        }
        if !self.record.note(call) {
            return Err(self.fail());
        }
        Ok(())
    }

    /// Makes a call that writes.
    fn put(&mut self, file: u32, at: u64, piece: &[u8]) -> Result<(), DiskFault>
        requires { at + length piece.now < 2 ^ 64 }
        ensures makes { Makes (Written file at piece.now) (IsFull self.old (length piece.now)) result self.old self.new }
        ensures count { CountsFault result self.old.faults self.new.faults }
    {
        if self.begin() {
            return Err(self.fail());
        }
        if !self.record.note_write(file, at, piece) {
            return Err(self.fail());
        }
        Ok(())
    }

    /// Fills the buffer from a place of a file on, as far as the file goes, and answers the file's length.
    fn content(&self, file: u32, at: u64, buf: &mut [u8]) -> u64
        ensures same_length { length buf.new ≡ length buf.old }
        ensures len { result ≡ length (seen_of self.now file) }
        ensures shows { Shows at (seen_of self.now file) buf.new }
    {
        let len = open_file(&self.opening, file, at, buf);
        replay(
            &self.record.calls,
            &self.record.written,
            file,
            at,
            buf,
            len,
            None,
        )
    }
}

impl Disk for MemDisk {
    ghost use Rattle.jx_disk.specs.Memory.{opening_of, calls_of, seen_of, may_leave_of, left_since_of, Passes, IsSpent, IsFull, Makes};
    ghost use Rattle.jx_disk.specs.MemoryLaws.{seen_stays, counts_since, only_since};

    ghost seen = { seen_of };

    ghost may_leave = { may_leave_of };

    ghost moment = { λ disk. length (calls_of disk) };

    ghost left_since = { left_since_of };

    ghost is_honest = { λ _. true };

    ghost faults = { λ disk. disk.faults };

    ghost seen_may_stay = { λ disk. seen_stays (opening_of disk) (calls_of disk) };

    ghost counts_now = { λ disk. counts_since (opening_of disk) (calls_of disk) };

    ghost only_now = { λ disk. only_since (opening_of disk) (calls_of disk) };

    fn len(&mut self, file: u32) -> Result<u64, DiskFault>
        ensures makes { Makes Quiet (IsSpent self.old) result self.old self.new }

        // What every disk promises.
        ensures length { IfOk result (λ n. n ≡ length (seen_of self.old file)) }
        ensures same { SameFiles (seen_of self.old) (seen_of self.new) }
        ensures crash { Within (may_leave_of self.old) (may_leave_of self.new) }
        ensures time { Passes self.old self.new }
        ensures count { CountsFault result self.old.faults self.new.faults }
    {
        self.look()?;
        let len = self.content(file, 0, &mut []);
        Ok(len)
    }

    fn read_at(&mut self, file: u32, at: u64, buf: &mut [u8]) -> Result<usize, DiskFault>
        ensures makes { Makes Quiet (IsSpent self.old) result self.old self.new }

        // What every disk promises.
        ensures within { IfOk result (λ n. n ≤ length buf.new) }
        ensures read { IfOk result (λ n. take n buf.new ≡ window at (length buf.old) (seen_of self.old file)) }
        ensures same { SameFiles (seen_of self.old) (seen_of self.new) }
        ensures crash { Within (may_leave_of self.old) (may_leave_of self.new) }
        ensures time { Passes self.old self.new }
        ensures count { CountsFault result self.old.faults self.new.faults }
    {
        self.look()?;
        let len = self.content(file, at, buf);
        Ok(count_from(len, at, buf.len()))
    }

    fn write_at(&mut self, file: u32, at: u64, piece: &[u8]) -> Result<(), DiskFault>
        requires { at + length piece.now < 2 ^ 64 }
        ensures makes { Makes (Written file at piece.now) (IsFull self.old (length piece.now)) result self.old self.new }

        // What every disk promises.
        ensures written { OnOk result (seen_of self.new file ≡ written_over 0 at piece.now (seen_of self.old file)) }
        ensures torn { ChangesFile file (TornWrite at (length piece.now)) (seen_of self.old) (seen_of self.new) }
        ensures crash { Follows (ChangesFile file (TornWrite at (length piece.now))) (may_leave_of self.old) (may_leave_of self.new) }
        ensures time { Passes self.old self.new }
        ensures count { CountsFault result self.old.faults self.new.faults }
    {
        self.put(file, at, piece)?;
        Ok(())
    }

    fn cut(&mut self, file: u32, len: u64) -> Result<(), DiskFault>
        ensures makes { Makes (Shortened file len) (IsSpent self.old) result self.old self.new }

        // What every disk promises.
        ensures shortened { OnOk result (seen_of self.new file ≡ take len (seen_of self.old file)) }
        ensures torn { ChangesFile file (TornCut len) (seen_of self.old) (seen_of self.new) }
        ensures crash { Follows (ChangesFile file (TornCut len)) (may_leave_of self.old) (may_leave_of self.new) }
        ensures time { Passes self.old self.new }
        ensures count { CountsFault result self.old.faults self.new.faults }
    {
        self.change(Call::Cut { file, len })?;
        Ok(())
    }

    fn sync(&mut self) -> Result<(), DiskFault>
        ensures makes { Makes Synced (IsSpent self.old) result self.old self.new }

        // What every disk promises.
        ensures stable { OnOk result (Only (seen_of self.old) (may_leave_of self.new)) }
        ensures same { SameFiles (seen_of self.old) (seen_of self.new) }
        ensures crash { Within (may_leave_of self.old) (may_leave_of self.new) }
        ensures time { Passes self.old self.new }
        ensures count { CountsFault result self.old.faults self.new.faults }
    {
        self.change(Call::Sync)?;
        Ok(())
    }
}

/// How many bytes a read of at most so many gets from a place of a file of this length.
fn count_from(len: u64, at: u64, most: usize) -> usize
    ensures { result ≡ min most (len - at) }
{
    let left = len.saturating_sub(at);
    if left < most as u64 {
        left as usize
    } else {
        most
    }
}

/// The same of the files before the first call.
pub(crate) fn open_file(files: &[FileBytes], file: u32, at: u64, buf: &mut [u8]) -> u64
    ensures same_length { length buf.new ≡ length buf.old }
    ensures len { result ≡ length (bytes_in files.now file) }
    ensures shows { Shows at (bytes_in files.now file) buf.new }
{
    for f in files {
        if f.number == file {
            show(&f.bytes, at, buf);
            return f.bytes.len() as u64;
        }
    }
    0
}

/// Puts the bytes from a place on into the buffer, as far as they go.
fn show(bytes: &[u8], at: u64, buf: &mut [u8])
    ensures same_length { length buf.new ≡ length buf.old }
    ensures shows { Shows at bytes.now buf.new }
{
    let len = bytes.len() as u64;
    if at < len {
        let rest = &bytes[at as usize..];
        let count = rest.len().min(buf.len());
        buf[..count].copy_from_slice(&rest[..count]);
    }
}
