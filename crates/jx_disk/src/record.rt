//! The calls that a disk in memory was asked for, and what a file holds after them.
ghost use Rattle.std.specs.Prelude.{◌≡◌, ◌≤◌, ◌+◌, ◌^◌, ◌<◌, ◌⊎◌, [], ◌∷◌, ◌++◌, ℕ, List, length, max, slice_index, unwrap_or, vec_len, vec_capacity, IfOk, IsTrue};
ghost use Rattle.std.specs.Prelude.{◌↔◌};
ghost use Rattle.std.specs.Bool.{OnTrue, OnFalse};
ghost use Rattle.jx_disk.specs.Disk.{written_over};
ghost use Rattle.jx_disk.specs.Calls.{Written, quiet_more, painted, bytes_after, crash_bytes};
ghost use Rattle.jx_disk.specs.declared.record.Call.TheVariants.{Sync};
ghost use Rattle.jx_disk.specs.Told.{told, total_written, all_in_range, rest_after, bytes_in, Shows};

use std::alloc::{AllocError, Global};

/// A call: one that only reads or that failed, a write of the next so many bytes, a cut, a sync.
#[derive(Clone, Copy, Debug)]
pub(crate) enum Call {
    Read,
    Write { file: u32, at: u64, len: usize },
    Cut { file: u32, len: u64 },
    Sync,
}

/// The bytes of one file.
#[derive(Debug, Drop)]
pub(crate) struct FileBytes {
    pub(crate) number: u32,
    pub(crate) bytes: Vec<u8>,
}

/// The calls in order, and beside them the bytes that the writes have written, end to end.
#[derive(Debug, Drop)]
pub(crate) struct Record {
    pub(crate) calls: Vec<Call>,
    pub(crate) written: Vec<u8>,
    pub(crate) call_room: usize,
    pub(crate) byte_room: usize,
    ghost counted: { total_written calls.items ≡ length written.items },
    ghost in_range: { IsTrue (all_in_range calls.items) },
    ghost calls_fit: { call_room ≤ vec_capacity calls },
    ghost bytes_fit: { byte_room ≤ vec_capacity written },
    ghost bytes_in_room: { length written.items ≤ byte_room },
}

impl Record {
    /// An empty record with room for so many calls and written bytes.
    pub(crate) fn new(alloc: Global, calls: usize, bytes: usize) -> Result<Record, AllocError>
        ensures empty { IfOk result (λ made. (made.calls.items ≡ []) × (made.written.items ≡ [])) }
        ensures room { IfOk result (λ made. (made.call_room ≡ calls) × (made.byte_room ≡ bytes)) }
    {
        let record = Vec::with_capacity(alloc, calls)?;
        let written = Vec::with_capacity(alloc, bytes)?;
        Ok(Record {
            calls: record,
            written,
            call_room: calls,
            byte_room: bytes,
        })
    }

    /// Records a call that writes nothing, where there is room for it.
    pub(crate) fn note(&mut self, call: Call) -> bool
        requires { (total_written (call ∷ []) ≡ 0) × IsTrue (all_in_range (call ∷ [])) }
        ensures room { IsTrue result ↔ (length self.old.calls.items < self.old.call_room) }
        ensures noted { OnTrue result (told self.new.calls.items self.new.written.items
            ≡ told self.old.calls.items self.old.written.items ++ told (call ∷ []) []) }
        ensures full { OnFalse result (self.new ≡ self.old) }
        ensures kept { (self.new.call_room ≡ self.old.call_room) × (self.new.byte_room ≡ self.old.byte_room) × (self.new.written ≡ self.old.written) }
    {
        if self.calls.len() >= self.call_room {
            return false;
        }
        append_call(&mut self.calls, call);
        true
    }

    /// Records a call that changes nothing, where there is room for it.
    pub(crate) fn note_quiet(&mut self)
        ensures noted { told self.new.calls.items self.new.written.items
            ≡ quiet_more (told self.old.calls.items self.old.written.items) self.old.call_room }
        ensures kept { (self.new.call_room ≡ self.old.call_room) × (self.new.byte_room ≡ self.old.byte_room) }
    {
        let _noted = self.note(Call::Read);
    }

    /// Records a write, where there is room for it and for its bytes.
    pub(crate) fn note_write(&mut self, file: u32, at: u64, piece: &[u8]) -> bool
        requires { at + length piece.now < 2 ^ 64 }
        ensures room { IsTrue result ↔ ((length self.old.calls.items < self.old.call_room)
            × (length self.old.written.items + length piece.now ≤ self.old.byte_room)) }
        ensures noted { OnTrue result (told self.new.calls.items self.new.written.items
            ≡ told self.old.calls.items self.old.written.items ++ Written file at piece.now ∷ []) }
        ensures full { OnFalse result (self.new ≡ self.old) }
        ensures kept { (self.new.call_room ≡ self.old.call_room) × (self.new.byte_room ≡ self.old.byte_room) }
    {
        if self.calls.len() >= self.call_room || piece.len() > self.byte_room - self.written.len() {
            return false;
        }
        append_bytes(&mut self.written, piece);
        let call = Call::Write {
            file,
            at,
            len: piece.len(),
        };
        append_call(&mut self.calls, call);
        true
    }
}

/// Appends a call for which there is room.
fn append_call(calls: &mut Vec<Call>, call: Call)
    requires { length calls.old.items < vec_capacity calls.old }
    ensures items { calls.new.items ≡ calls.old.items ++ call ∷ [] }
    ensures room { vec_capacity calls.old ≤ vec_capacity calls.new }
{
    calls.push(call).unwrap();
}

/// Appends bytes for which there is room.
fn append_bytes(bytes: &mut Vec<u8>, piece: &[u8])
    requires { length bytes.old.items + length piece.now ≤ vec_capacity bytes.old }
    ensures items { bytes.new.items ≡ bytes.old.items ++ piece.now }
    ensures room { vec_capacity bytes.old ≤ vec_capacity bytes.new }
{
    bytes.extend_from_slice(piece).unwrap();
}

/// The byte at a place of a file of so many bytes, after the piece was written over `old` there.
fn byte_after(old: u8, place: u64, len: u64, from: u64, piece: &[u8], fill: Option<u8>) -> u8
    ensures { (bytes : List ℕ) → length bytes ≡ len → place < max len (from + length piece.now) → (place < len → old ≡ slice_index bytes place)
        → result ≡ slice_index (written_over (unwrap_or fill 0) from (painted fill piece.now) bytes) place }
{
    if place < from {
        return if place < len { old } else { fill.unwrap_or(0) };
    }
    let at = place - from;
    if at < piece.len() as u64 {
        match fill {
            Some(byte) => byte,
            None => piece[at as usize],
        }
    } else {
        old
    }
}

/// Writes the piece over what the buffer shows of a file from a place on, and answers the file's length.
fn overlay(buf: &mut [u8], at: u64, len: u64, from: u64, piece: &[u8], fill: Option<u8>) -> u64
    requires { from + length piece.now < 2 ^ 64 }
    ensures len { result ≡ max len (from + length piece.now) }
    ensures same_length { length buf.new ≡ length buf.old }
    ensures shows { (bytes : List ℕ) → length bytes ≡ len → Shows at bytes buf.old
        → Shows at (written_over (unwrap_or fill 0) from (painted fill piece.now) bytes) buf.new }
{
    for (k, byte) in buf.iter_mut().enumerate() {
        let place = at.saturating_add(k as u64);
        *byte = byte_after(*byte, place, len, from, piece, fill);
    }
    len.max(from + piece.len() as u64)
}

/// Makes the calls over what the buffer shows of a file from a place on, and answers the file's length.
pub(crate) fn replay(
    calls: &[Call],
    written: &[u8],
    file: u32,
    at: u64,
    buf: &mut [u8],
    len: u64,
    fill: Option<u8>,
) -> u64
    requires all_written { total_written calls.now ≤ length written.now }
    requires in_range { IsTrue (all_in_range calls.now) }
    ensures same_length { length buf.new ≡ length buf.old }
    ensures len { (bytes : List ℕ) → length bytes ≡ len → result ≡ length (bytes_after fill (told calls.now written.now) file bytes) }
    ensures shows { (bytes : List ℕ) → length bytes ≡ len → Shows at bytes buf.old
        → Shows at (bytes_after fill (told calls.now written.now) file bytes) buf.new }
{
    let mut now = len;
    let mut rest = written;
    for call in calls {
        match *call {
            Call::Write {
                file: other,
                at: from,
                len: count,
            } => {
                let (piece, after) = rest.split_at(count);
                if file == other {
                    now = overlay(buf, at, now, from, piece, fill);
                }
                rest = after;
            }
            Call::Cut {
                file: other,
                len: most,
            } => {
                if file == other {
                    now = now.min(most);
                }
            }
            Call::Read => {}
            Call::Sync => {}
        }
    }
    now
}

/// The written bytes that a call leaves to those after it.
fn rest_after(call: Call, written: &[u8]) -> &[u8]
    requires { total_written (call ∷ []) ≤ length written.now }
    ensures { result.now ≡ rest_after call written.now }
{
    match call {
        Call::Write { len, .. } => &written[len..],
        Call::Read => written,
        Call::Cut { .. } => written,
        Call::Sync => written,
    }
}

fn is_sync(call: Call) -> bool
    ensures { IsTrue result ↔ (call ≡ Sync) }
{
    match call {
        Call::Sync => true,
        Call::Read => false,
        Call::Write { .. } => false,
        Call::Cut { .. } => false,
    }
}

/// The same where a crash comes during the call after so many: `kept` comes to show what the crash leaves.
pub(crate) fn interrupt(
    calls: &[Call],
    written: &[u8],
    file: u32,
    count: u64,
    fill: Option<u8>,
    seen: &mut [u8],
    seen_len: u64,
    kept: &mut [u8],
    kept_len: u64,
) -> u64
    requires all_written { total_written calls.now ≤ length written.now }
    requires in_range { IsTrue (all_in_range calls.now) }
    requires alike { length seen.old ≡ length kept.old }
    ensures same_length { length kept.new ≡ length kept.old }
    ensures len { (read left : List ℕ) → length read ≡ seen_len → length left ≡ kept_len
        → result ≡ length (crash_bytes (told calls.now written.now) fill count file read left) }
    ensures shows { (read left : List ℕ) → length read ≡ seen_len → length left ≡ kept_len → Shows 0 read seen.old → Shows 0 left kept.old
        → Shows 0 (crash_bytes (told calls.now written.now) fill count file read left) kept.new }
{
    let [call, others @ ..] = calls else {
        return kept_len;
    };
    let one = &calls[..1];
    if count == 0 {
        return replay(one, written, file, 0, kept, kept_len, fill);
    }
    let rest = rest_after(*call, written);
    let read_len = replay(one, written, file, 0, seen, seen_len, None);
    if is_sync(*call) {
        kept.copy_from_slice(seen);
        return interrupt(
            others,
            rest,
            file,
            count - 1,
            fill,
            seen,
            read_len,
            kept,
            read_len,
        );
    }
    let left_len = replay(one, written, file, 0, kept, kept_len, fill);
    interrupt(
        others,
        rest,
        file,
        count - 1,
        fill,
        seen,
        read_len,
        kept,
        left_len,
    )
}
