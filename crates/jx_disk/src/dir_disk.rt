//! A disk over a folder: the trusted edge, of which contracts see the count of faults alone.
ghost use Rattle.std.specs.Prelude.{◌≡◌, ◌≤◌, ◌+◌, ◌<◌, ◌^◌, length, false, IsErr, IfOk, OnErr};
ghost use Rattle.jx_disk.specs.Disk.{CountsFault, SameFiles, TornWrite, TornCut, ChangesFile, Follows, Within, Only, Elapses};
ghost use Rattle.jx_disk.specs.Folder.{shown_nowhere, anything};

use crate::folder::Folder;
use crate::{Disk, DiskFault};
use std::alloc::{AllocError, Global};
use std::io;
use std::marker::Model;
use std::rt::Files;

/// A disk over a folder, where file N is the file `N`. The folder is made at the first write. A call of the host that
/// fails is a fault, and after a sync that failed each call is one.
#[derive(Drop)]
pub struct DirDisk<'a, R: Files> {
    folder: Folder<'a, R>,
    faults: u64,
}

impl<'a, R: Files> Model for DirDisk<'a, R> {
    ghost use Rattle.std.specs.Prelude.{ℕ};

    ghost Value = { ℕ };

    ghost view = { λ disk. disk.faults };
}

/// What a call answers, where the host's error is a fault.
fn answer<T>(faults: &mut u64, answer: io::Result<T>) -> Result<T, DiskFault>
    ensures given { IfOk answer (λ value. result ≡ Ok value) }
    ensures failed { OnErr answer (IsErr result) }
    ensures count { CountsFault result faults.old faults.new }
{
    match answer {
        Ok(value) => Ok(value),
        Err(_) => {
            *faults = faults.saturating_add(1);
            Err(DiskFault)
        }
    }
}

impl<'a, R: Files> DirDisk<'a, R> {
    /// A disk over this folder of the host. It takes room for the paths, and touches no file. Its only error is to be
    /// out of memory.
    pub fn new(alloc: Global, host: &'a R, folder: &'a str) -> Result<DirDisk<'a, R>, AllocError>
        ensures { IfOk result (λ disk. disk ≡ 0) }
    {
        Ok(DirDisk {
            folder: Folder::new(alloc, host, folder)?,
            faults: 0,
        })
    }

    /// How many calls have failed.
    pub fn faults(&self) -> u64
        ensures { result ≡ self.now }
    {
        self.faults
    }
}

impl<'a, R: Files> Disk for DirDisk<'a, R> {
    ghost seen = { λ _. shown_nowhere };

    ghost may_leave = { λ _. anything };

    ghost moment = { λ _. 0 };

    ghost left_since = { λ _ _. anything };

    ghost is_honest = { λ _. false };

    ghost faults = { λ disk. disk };

    ghost seen_may_stay = { λ _. tt };

    ghost counts_now = { λ _ _ _ _ _. tt };

    ghost only_now = { λ _ _ _. tt };

    fn len(&mut self, file: u32) -> Result<u64, DiskFault> {
        let len = self.folder.len(file);
        answer(&mut self.faults, len)
    }

    fn read_at(&mut self, file: u32, at: u64, buf: &mut [u8]) -> Result<usize, DiskFault> {
        let count = self.folder.read_at(file, at, buf);
        answer(&mut self.faults, count)
    }

    fn write_at(&mut self, file: u32, at: u64, piece: &[u8]) -> Result<(), DiskFault> {
        let written = self.folder.write_at(file, at, piece);
        answer(&mut self.faults, written)
    }

    fn cut(&mut self, file: u32, len: u64) -> Result<(), DiskFault> {
        let cut = self.folder.cut(file, len);
        answer(&mut self.faults, cut)
    }

    fn sync(&mut self) -> Result<(), DiskFault> {
        let synced = self.folder.sync();
        answer(&mut self.faults, synced)
    }
}
