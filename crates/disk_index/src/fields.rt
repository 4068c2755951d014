ghost use Rattle.std.specs.Prelude.{◌≡◌, take, drop, IfErr};
ghost use Rattle.java_model.specs.IndexFile.Reading.{number_at, slice_at, mark_at, end_at};
ghost use Rattle.disk_index.specs.Reads.{Gives, IsLeft};

use crate::fault::ReadFault;
use byteorder::{BigEndian, ByteOrder};

/// The four bytes that begin a file.
pub(crate) const MARK: [u8; 4] = *b"JXF2";

/// The two bytes of a path's length, and what follows them.
pub(crate) fn number_2(bytes: &[u8]) -> Result<(u16, &[u8]), ReadFault>
    ensures value { Gives (λ x. (x.0, x.1.now)) result (number_at 2 bytes.now) }
    ensures told { IfErr result IsLeft }
{
    if bytes.len() < 2 {
        return Err(ReadFault::Left(0));
    }
    Ok((BigEndian::read_u16(bytes), &bytes[2..]))
}

/// The four bytes of a count, a length, an offset or an entry's number, and what follows them.
pub(crate) fn number_4(bytes: &[u8]) -> Result<(u32, &[u8]), ReadFault>
    ensures value { Gives (λ x. (x.0, x.1.now)) result (number_at 4 bytes.now) }
    ensures told { IfErr result IsLeft }
{
    if bytes.len() < 4 {
        return Err(ReadFault::Left(0));
    }
    Ok((BigEndian::read_u32(bytes), &bytes[4..]))
}

/// The eight bytes of a stamp, and what follows them.
pub(crate) fn number_8(bytes: &[u8]) -> Result<(u64, &[u8]), ReadFault>
    ensures value { Gives (λ x. (x.0, x.1.now)) result (number_at 8 bytes.now) }
    ensures told { IfErr result IsLeft }
{
    if bytes.len() < 8 {
        return Err(ReadFault::Left(0));
    }
    Ok((BigEndian::read_u64(bytes), &bytes[8..]))
}

/// A field of so many bytes, and what follows it.
pub(crate) fn slice_at(len: usize, bytes: &[u8]) -> Result<(&[u8], &[u8]), ReadFault>
    ensures value { Gives (λ x. (x.0.now, x.1.now)) result (slice_at len bytes.now) }
    ensures told { IfErr result IsLeft }
{
    if bytes.len() < len {
        return Err(ReadFault::Left(0));
    }
    Ok(bytes.split_at(len))
}

/// The four bytes that begin a file, and what follows them.
pub(crate) fn mark_at(bytes: &[u8]) -> Result<&[u8], ReadFault>
    ensures value { Gives (λ rest. (take 4 bytes.now, rest.now)) result (mark_at bytes.now) }
    ensures told { IfErr result IsLeft }
{
    let (mark, rest) = slice_at(4, bytes)?;
    if mark != MARK.as_slice() {
        return Err(ReadFault::Left(bytes.len()));
    }
    Ok(rest)
}

/// That no byte is left.
pub(crate) fn end_at(bytes: &[u8]) -> Result<(), ReadFault>
    ensures value { Gives (λ _. bytes.now) result (end_at bytes.now) }
    ensures told { IfErr result IsLeft }
{
    if !bytes.is_empty() {
        return Err(ReadFault::Left(bytes.len()));
    }
    Ok(())
}

/// The bytes from a place of a file on.
pub(crate) fn from_place(file: &[u8], place: usize) -> &[u8]
    ensures { result.now ≡ drop place file.now }
{
    let (_, rest) = file.split_at(place.min(file.len()));
    rest
}
