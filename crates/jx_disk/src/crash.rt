//! What a crash leaves of the files of a disk in memory.
ghost use Rattle.std.specs.Prelude.{◌≡◌, ℕ, length, true, IfOk, OnOk};
ghost use Rattle.jx_disk.specs.Told.{bytes_in, Shows};
ghost use Rattle.jx_disk.specs.Crash.{is_listed, names, any_names, left_of, AreLeft, Lists};

use crate::memory::open_file;
use crate::record::{Call, FileBytes, Record, interrupt};
use std::alloc::{AllocError, Global};

fn is_listed(files: &[FileBytes], file: u32) -> bool
    ensures { result ≡ is_listed files.now file }
{
    for f in files {
        if f.number == file {
            return true;
        }
    }
    false
}

/// Fills a buffer with what a crash leaves of a file, as far as it goes, and answers the file's length.
fn fill_left(
    opening: &[FileBytes],
    made: &Record,
    fill: Option<u8>,
    count: u64,
    file: u32,
    seen: &mut [u8],
    kept: &mut [u8],
) -> u64
    requires { length seen.old ≡ length kept.old }
    ensures same_length { length kept.new ≡ length kept.old }
    ensures len { result ≡ length (left_of opening.now made.now fill count file) }
    ensures shows { Shows 0 (left_of opening.now made.now fill count file) kept.new }
{
    let start = open_file(opening, file, 0, seen);
    open_file(opening, file, 0, kept);
    interrupt(
        &made.calls,
        &made.written,
        file,
        count,
        fill,
        seen,
        start,
        kept,
        start,
    )
}

/// What a crash leaves of a file.
fn left_of(
    alloc: Global,
    opening: &[FileBytes],
    made: &Record,
    fill: Option<u8>,
    count: u64,
    file: u32,
) -> Result<Vec<u8>, AllocError>
    ensures { IfOk result (λ bytes. bytes.items ≡ left_of opening.now made.now fill count file) }
{
    let len = fill_left(opening, made, fill, count, file, &mut [], &mut []) as usize;
    let mut seen = vec![in alloc; 0u8; len]?;
    let mut kept = vec![in alloc; 0u8; len]?;
    fill_left(opening, made, fill, count, file, &mut seen, &mut kept);
    Ok(kept)
}

/// Adds a file, unless it is there.
fn add_file(
    alloc: Global,
    files: &mut Vec<FileBytes>,
    opening: &[FileBytes],
    made: &Record,
    fill: Option<u8>,
    count: u64,
    file: u32,
) -> Result<(), AllocError>
    requires { AreLeft (left_of opening.now made.now fill count) files.old.items }
    ensures left { OnOk result (AreLeft (left_of opening.now made.now fill count) files.new.items) }
    ensures kept { OnOk result (Lists (is_listed files.old.items) files.new.items) }
    ensures listed { OnOk result (is_listed files.new.items file ≡ true) }
{
    if is_listed(files.as_slice(), file) {
        return Ok(());
    }
    let bytes = left_of(alloc, opening, made, fill, count, file)?;
    files.push(FileBytes {
        number: file,
        bytes,
    })?;
    Ok(())
}

/// Adds the files that there were before the first call.
fn add_opening(
    alloc: Global,
    files: &mut Vec<FileBytes>,
    opening: &[FileBytes],
    made: &Record,
    fill: Option<u8>,
    count: u64,
) -> Result<(), AllocError>
    requires { AreLeft (left_of opening.now made.now fill count) files.old.items }
    ensures left { OnOk result (AreLeft (left_of opening.now made.now fill count) files.new.items) }
    ensures listed { OnOk result (Lists (is_listed opening.now) files.new.items) }
{
    for f in opening {
        add_file(alloc, files, opening, made, fill, count, f.number)?;
    }
    Ok(())
}

/// Adds the file that a call names, if it names one.
fn add_named(
    alloc: Global,
    files: &mut Vec<FileBytes>,
    opening: &[FileBytes],
    made: &Record,
    fill: Option<u8>,
    count: u64,
    call: Call,
) -> Result<(), AllocError>
    requires { AreLeft (left_of opening.now made.now fill count) files.old.items }
    ensures left { OnOk result (AreLeft (left_of opening.now made.now fill count) files.new.items) }
    ensures kept { OnOk result (Lists (is_listed files.old.items) files.new.items) }
    ensures listed { OnOk result (Lists (λ file. names file call) files.new.items) }
{
    match call {
        Call::Write { file, .. } => add_file(alloc, files, opening, made, fill, count, file),
        Call::Cut { file, .. } => add_file(alloc, files, opening, made, fill, count, file),
        Call::Read => Ok(()),
        Call::Sync => Ok(()),
    }
}

/// Adds the files that the calls name.
fn add_called(
    alloc: Global,
    files: &mut Vec<FileBytes>,
    opening: &[FileBytes],
    made: &Record,
    fill: Option<u8>,
    count: u64,
) -> Result<(), AllocError>
    requires { AreLeft (left_of opening.now made.now fill count) files.old.items }
    ensures left { OnOk result (AreLeft (left_of opening.now made.now fill count) files.new.items) }
    ensures kept { OnOk result (Lists (is_listed files.old.items) files.new.items) }
    ensures listed { OnOk result (Lists (any_names made.now.calls.items) files.new.items) }
{
    for call in made.calls.as_slice() {
        add_named(alloc, files, opening, made, fill, count, *call)?;
    }
    Ok(())
}

/// The files that a crash leaves during the call after so many. Its only error is to be out of memory.
pub(crate) fn files_left(
    alloc: Global,
    opening: &[FileBytes],
    made: &Record,
    fill: Option<u8>,
    count: u64,
) -> Result<Vec<FileBytes>, AllocError>
    ensures { IfOk result (λ files. (file : ℕ) → bytes_in files.items file ≡ left_of opening.now made.now fill count file) }
{
    let mut files = Vec::new(alloc);
    add_opening(alloc, &mut files, opening, made, fill, count)?;
    add_called(alloc, &mut files, opening, made, fill, count)?;
    Ok(files)
}
