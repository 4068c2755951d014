//! The files of a folder of the host.
ghost use Rattle.std.specs.Prelude.{◌≤◌, length, IfOk};

use std::alloc::{AllocError, Global};
use std::fmt::Write as WriteText;
use std::fs::{File, OpenFile, OpenOptions};
use std::io;
use std::io::{ErrorKind, Read, Seek, SeekFrom, Write};
use std::path::Path;
use std::rt::Files;

/// How many bytes of a folder's names are asked for at once.
const NAMES: usize = 4096;

/// How many bytes `/` and the greatest number take.
const NAME_ROOM: usize = 11;

/// A file that may have been written since the last sync.
#[derive(Drop)]
struct Held<F> {
    number: u32,
    file: F,
}

impl<F: Write + Seek + OpenFile> Held<F> {
    fn write_at(&mut self, at: u64, piece: &[u8]) -> io::Result<()> {
        if self.file.metadata()?.len() < at {
            self.file.set_len(at)?;
        }
        self.file.seek(SeekFrom::Start(at))?;
        self.file.write_all(piece)
    }
}

/// The files of a folder, file N by the name `N`. After a sync that failed each call fails, since what was written
/// may be lost, and a later sync wouldn't tell.
#[derive(Drop)]
pub(crate) struct Folder<'a, R: Files> {
    host: &'a R,
    name: &'a str,
    path: String,
    held: Option<Held<R::File>>,
    is_settled: bool,
    is_lost: bool,
}

impl<'a, R: Files> Folder<'a, R> {
    /// Takes room for the path of any file, and touches no file.
    pub(crate) fn new(
        alloc: Global,
        host: &'a R,
        name: &'a str,
    ) -> Result<Folder<'a, R>, AllocError> {
        let Some(room) = name.len().checked_add(NAME_ROOM) else {
            return Err(AllocError);
        };
        Ok(Folder {
            host,
            name,
            path: String::with_capacity(alloc, room)?,
            held: None,
            is_settled: false,
            is_lost: false,
        })
    }

    pub(crate) fn len(&mut self, number: u32) -> io::Result<u64> {
        match self.to_read(number)? {
            Some(file) => Ok(file.metadata()?.len()),
            None => Ok(0),
        }
    }

    pub(crate) fn read_at(&mut self, number: u32, at: u64, buf: &mut [u8]) -> io::Result<usize>
        ensures { IfOk result (λ n. n ≤ length buf.new) }
    {
        match self.to_read(number)? {
            Some(mut file) => {
                file.seek(SeekFrom::Start(at))?;
                read_full(&mut file, buf)
            }
            None => Ok(0),
        }
    }

    pub(crate) fn write_at(&mut self, number: u32, at: u64, piece: &[u8]) -> io::Result<()> {
        self.hold(number)?;
        match &mut self.held {
            Some(held) => held.write_at(at, piece),
            None => Ok(()),
        }
    }

    pub(crate) fn cut(&mut self, number: u32, len: u64) -> io::Result<()> {
        if self.len(number)? <= len {
            return Ok(());
        }
        self.hold(number)?;
        match &self.held {
            Some(held) => held.file.set_len(len),
            None => Ok(()),
        }
    }

    /// Makes all files stable, at the first time those too that an earlier process wrote.
    pub(crate) fn sync(&mut self) -> io::Result<()> {
        self.check()?;
        self.let_go()?;
        let synced = self.sync_folder();
        self.is_lost = synced.is_err();
        self.is_settled = synced.is_ok();
        synced
    }

    fn check(&self) -> io::Result<()> {
        if self.is_lost {
            return Err(ErrorKind::Other.into());
        }
        Ok(())
    }

    /// Makes the path of a name of the folder.
    fn set_path(&mut self, name: &str) -> io::Result<()> {
        self.path.clear();
        self.path.push_str(self.name)?;
        self.path.push('/')?;
        self.path.push_str(name)?;
        Ok(())
    }

    /// Makes the path of a file.
    fn set_file(&mut self, number: u32) -> io::Result<()> {
        self.path.clear();
        match write!(self.path, "{}/{number}", self.name) {
            Ok(()) => Ok(()),
            Err(_) => Err(ErrorKind::OutOfMemory.into()),
        }
    }

    /// Opens a file, if it is there.
    fn to_read(&mut self, number: u32) -> io::Result<Option<R::File>> {
        self.check()?;
        self.set_file(number)?;
        if_there(File::open(self.host, self.path.as_str()))
    }

    /// Opens a file for writing, and makes it and the folder where they aren't there.
    fn to_write(&mut self, number: u32) -> io::Result<R::File> {
        self.set_file(number)?;
        let mut how = OpenOptions::new();
        how.read(true).write(true).create(true);
        match how.open(self.host, self.path.as_str()) {
            Err(e) if e.kind() == ErrorKind::NotFound => {
                self.host.create_dir(self.name)?;
                how.open(self.host, self.path.as_str())
            }
            opened => opened,
        }
    }

    /// Holds a file for writing. One that was held before is made stable.
    fn hold(&mut self, number: u32) -> io::Result<()> {
        self.check()?;
        if let Some(held) = &self.held {
            if held.number == number {
                return Ok(());
            }
        }
        self.let_go()?;
        let file = self.to_write(number)?;
        self.held = Some(Held { number, file });
        Ok(())
    }

    /// Makes the file that is held stable, and closes it.
    fn let_go(&mut self) -> io::Result<()> {
        let Some(held) = self.held.take() else {
            return Ok(());
        };
        let synced = held.file.sync_all();
        self.is_lost = synced.is_err();
        synced
    }

    /// Makes the names of the folder stable, and at the first time its files and its own name.
    fn sync_folder(&mut self) -> io::Result<()> {
        let Some(folder) = if_there(File::open(self.host, self.name))? else {
            return Ok(());
        };
        if !self.is_settled {
            self.sync_files()?;
            sync_parent(self.host, self.name)?;
        }
        folder.sync_all()
    }

    fn sync_files(&mut self) -> io::Result<()> {
        let mut names = self.host.open_dir(self.name)?;
        let mut buf = [0u8; NAMES];
        for _ in 0..u64::MAX {
            let count = names.read(&mut buf)?;
            if count == 0 {
                break;
            }
            for name in buf[..count].split(|b| *b == 0) {
                self.sync_name(name)?;
            }
        }
        Ok(())
    }

    /// Makes a file stable whose name is a number.
    fn sync_name(&mut self, name: &[u8]) -> io::Result<()> {
        let Ok(text) = str::from_utf8(name) else {
            return Ok(());
        };
        if text.parse::<u32>().is_err() {
            return Ok(());
        }
        self.set_path(text)?;
        File::open(self.host, self.path.as_str())?.sync_all()
    }
}

/// What was opened, or none where nothing is there.
fn if_there<F: Drop>(opened: io::Result<F>) -> io::Result<Option<F>> {
    match opened {
        Ok(file) => Ok(Some(file)),
        Err(e) if e.kind() == ErrorKind::NotFound => Ok(None),
        Err(e) => Err(e),
    }
}

/// Makes the name of a folder stable.
fn sync_parent<R: Files>(host: &R, name: &str) -> io::Result<()> {
    match Path::new(name).parent() {
        Some(parent) if parent.as_str().is_empty() => File::open(host, ".")?.sync_all(),
        Some(parent) => File::open(host, parent)?.sync_all(),
        None => Ok(()),
    }
}

/// Reads until the buffer is full or the file ends.
fn read_full<F: Read>(file: &mut F, buf: &mut [u8]) -> io::Result<usize>
    ensures { IfOk result (λ n. n ≤ length buf.new) }
{
    let mut got = 0;
    for _ in 0..u64::MAX {
        if got >= buf.len() {
            break;
        }
        match file.read(&mut buf[got..]) {
            Ok(0) => break,
            Ok(count) => got += count,
            Err(e) if e.kind() == ErrorKind::Interrupted => {}
            Err(e) => return Err(e),
        }
    }
    Ok(got)
}
