//! Index files of which something was changed, each with its first faulty field.
use crate::shown::file;
use std::alloc::{AllocError, Global};
use std::test::Fail;

/// Two documents of stamp 1, `A.java` with the declaration of a class `A`, `AB.java` with that of `AB`.
const TWO_WORDS: [u8; 90] = *b"JXF2\0\0\0\x02\
\0\x06A.java\0\0\0\0\0\0\0\x01\
\0\x07AB.java\0\0\0\0\0\0\0\x01\
\0\0\0\x02\0\0\0\x31\
\0\0\0\0\0\0\0\x05\x02A//c\0\0\0\x01\0\0\0\0\
\0\0\0\x02\0\0\0\x04B//c\0\0\0\x01\0\0\0\x01";

/// What it says.
const CONTENT: &str = "[A.java 1 AB.java 1 ] TypeDecl A//c 0 TypeDecl AB//c 1";

/// A file in which bytes stand in place of those from a place on, `cut` of them.
pub(crate) fn replaced(
    alloc: Global,
    file: &[u8],
    at: usize,
    cut: usize,
    bytes: &[u8],
) -> Result<Vec<u8>, AllocError> {
    let (before, rest) = file.split_at(at.min(file.len()));
    let (_, after) = rest.split_at(cut.min(rest.len()));
    let mut changed = Vec::from_slice(alloc, before)?;
    changed.extend_from_slice(bytes)?;
    changed.extend_from_slice(after)?;
    Ok(changed)
}

fn told(
    alloc: Global,
    bytes: &[u8],
    at: usize,
    cut: usize,
    by: &[u8],
) -> Result<String, AllocError> {
    file(alloc, replaced(alloc, bytes, at, cut, by)?)
}

/// A place and the byte that is put there; what the file is then.
pub(crate) type Change = (usize, u8, &'static str);

/// Changes of the mark, the counts and the entries.
const HEADS: [Change; 20] = [
    (0, b'K', "bad 0"),
    (2, b'f', "bad 0"),
    (3, b'1', "old"),
    (3, b'3', "bad 0"),
    (7, 0, "bad 90"),
    (7, 1, "bad 90"),
    (7, 3, "bad 43"),
    (4, 0x80, "bad 43"),
    (8, 0x7f, "bad 90"),
    (9, 5, "bad 10"),
    (9, 0, "bad 10"),
    (10, b' ', "bad 10"),
    (10, 0xff, "bad 10"),
    (10, b'B', "bad 26"),
    (27, b'-', "bad 26"),
    (27, b'.', "bad 26"),
    (27, 0x7f, "bad 26"),
    (33, 0x40, "bad 33"),
    (
        16,
        0x3f,
        "[A.java 4539628424389459969 AB.java 1 ] TypeDecl A//c 0 TypeDecl AB//c 1",
    ),
    (
        23,
        0,
        "[A.java 0 AB.java 1 ] TypeDecl A//c 0 TypeDecl AB//c 1",
    ),
];

/// Changes of the words' count, the offset and the first word.
const FIRST_WORD: [Change; 20] = [
    (44, 0, "bad 45"),
    (44, 1, "bad 70"),
    (44, 3, "bad 90"),
    (44, 17, "bad 53"),
    (41, 0x80, "bad 90"),
    (48, 0x30, "bad 45"),
    (48, 0x32, "bad 45"),
    (45, 1, "bad 45"),
    (52, 1, "bad 49"),
    (56, 0, "bad 57"),
    (53, 0x80, "bad 90"),
    (56, 4, "bad 65"),
    (57, 10, "bad 57"),
    (57, 3, "bad 57"),
    (58, 0xff, "bad 57"),
    (59, b'A', "bad 57"),
    (65, 0, "bad 62"),
    (65, 2, "bad 70"),
    (62, 0x80, "bad 70"),
    (69, 2, "bad 66"),
];

/// Changes of the second word.
const SECOND_WORD: [Change; 20] = [
    (73, 0, "bad 78"),
    (73, 3, "bad 78"),
    (73, 4, "bad 78"),
    (73, 5, "bad 78"),
    (73, 6, "bad 70"),
    (70, 0x80, "bad 70"),
    (77, 0, "bad 78"),
    (77, 3, "bad 85"),
    (77, 5, "bad 90"),
    (77, 12, "bad 90"),
    (77, 13, "bad 90"),
    (78, b'.', "bad 78"),
    (78, b'/', "bad 78"),
    (79, b'x', "bad 78"),
    (81, 0xff, "bad 78"),
    (85, 0, "bad 82"),
    (85, 2, "bad 90"),
    (89, 2, "bad 86"),
    (86, 1, "bad 86"),
    (
        73,
        1,
        "[A.java 1 AB.java 1 ] TypeDecl A//c 0 TypeDecl B//c 1",
    ),
];

pub(crate) fn one_byte(alloc: Global, file: &[u8], change: &Change) -> Result<String, AllocError> {
    let (at, byte, _) = *change;
    told(alloc, file, at, 1, &[byte])
}

#[test]
fn heads(rt: HostRuntime) -> Result<(), Fail> {
    for change in &HEADS {
        let answer = one_byte(rt.alloc(), &TWO_WORDS, change)?;
        assert_eq!(rt; answer.as_str(), change.2, "{change:?}");
    }
    Ok(())
}

#[test]
fn first_word(rt: HostRuntime) -> Result<(), Fail> {
    for change in &FIRST_WORD {
        let answer = one_byte(rt.alloc(), &TWO_WORDS, change)?;
        assert_eq!(rt; answer.as_str(), change.2, "{change:?}");
    }
    Ok(())
}

#[test]
fn second_word(rt: HostRuntime) -> Result<(), Fail> {
    for change in &SECOND_WORD {
        let answer = one_byte(rt.alloc(), &TWO_WORDS, change)?;
        assert_eq!(rt; answer.as_str(), change.2, "{change:?}");
    }
    Ok(())
}

/// A place, how many bytes are taken out there, the bytes that are put there; what the file is then.
type Piece = (usize, usize, &'static [u8], &'static str);

const PIECES: [Piece; 14] = [
    (0, 0, b"", CONTENT),
    (70, 12, b"\0\0\0\x01\0\0\0\x05AB//c", "bad 78"),
    (62, 8, b"\0\0\0\x02\0\0\0\0\0\0\0\0", "bad 70"),
    (62, 8, b"\0\0\0\x02\0\0\0\x01\0\0\0\0", "bad 70"),
    (
        62,
        8,
        b"\0\0\0\x02\0\0\0\0\0\0\0\x01",
        "[A.java 1 AB.java 1 ] TypeDecl A//c 0 TypeDecl A//c 1 TypeDecl AB//c 1",
    ),
    (
        33,
        8,
        b"\x40\0\0\0\0\0\0\0",
        "[A.java 1 AB.java 4611686018427387904 ] TypeDecl A//c 0 TypeDecl AB//c 1",
    ),
    (90, 0, b"\0", "bad 90"),
    (90, 0, b"JXF2", "bad 90"),
    (0, 90, b"JXF1", "old"),
    (0, 90, b"JXF1?", "old"),
    (0, 90, b"XX", "bad 2"),
    (0, 90, b"JXR1", "bad 0"),
    (0, 90, b"JXF2\0\0\0\0\0\0\0\0", "[]"),
    (
        0,
        90,
        b"JXF2\0\0\0\0\0\0\0\x01\0\0\0\x10\0\0\0\0\0\0\0\x01\x09\0\0\0\x01\0\0\0\0",
        "bad 29",
    ),
];

#[test]
fn pieces(rt: HostRuntime) -> Result<(), Fail> {
    for (at, cut, bytes, want) in &PIECES {
        let answer = told(rt.alloc(), &TWO_WORDS, *at, *cut, bytes)?;
        assert_eq!(rt; answer.as_str(), *want, "{at} {cut} {bytes:?}");
    }
    Ok(())
}

/// The end cuts off the first field that isn't whole.
#[test]
fn prefixes(rt: HostRuntime) -> Result<(), Fail> {
    for len in 0..TWO_WORDS.len() {
        let answer = told(rt.alloc(), &TWO_WORDS, len, TWO_WORDS.len(), b"")?;
        let want = format!(in rt.alloc(); "bad {len}")?;
        assert_eq!(rt; answer.as_str(), want.as_str());
    }
    Ok(())
}
