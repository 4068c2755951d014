//! Index files of one word, and of words in two blocks.
use crate::index_files::{Change, one_byte};
use crate::shown::file;
use std::alloc::{AllocError, Global};
use std::test::Fail;

/// A file of one document and one word, up to that word's length.
const BEFORE_WORD: [u8; 36] =
    *b"JXF2\0\0\0\x01\0\x06A.java\0\0\0\0\0\0\0\x01\0\0\0\x01\0\0\0\x20\0\0\0\0";

/// The file of one document and of one word, which is at byte 40.
fn of_word(alloc: Global, word: &[u8]) -> Result<Vec<u8>, AllocError> {
    let mut bytes = Vec::from_slice(alloc, &BEFORE_WORD)?;
    bytes.extend_from_slice(&(word.len().min(255) as u32).to_be_bytes())?;
    bytes.extend_from_slice(word)?;
    bytes.extend_from_slice(b"\0\0\0\x01\0\0\0\0")?;
    Ok(bytes)
}

/// Words, and what their files are after the entries; the empty text is a file that is bad at byte 40.
const WORDS: [(&[u8], &str); 20] = [
    (b"\x01", " PackageDecl  0"),
    (b"\x01p.q", " PackageDecl p.q 0"),
    (b"\x01p/q", ""),
    (b"\x02A/p/c", " TypeDecl A/p/c 0"),
    (b"\x02//", " TypeDecl // 0"),
    (b"\x02A/c", ""),
    (b"\x02A/p/q/c", ""),
    (b"\x03B/A//e", " SuperRef B/A//e 0"),
    (b"\x03B/A/e", ""),
    (b"\x04f/1", " MethodDecl f/1 0"),
    (b"\x05f/1", " MethodRef f/1 0"),
    (b"\x06A/0", " ConstructorDecl A/0 0"),
    (b"\x07A/0", " ConstructorRef A/0 0"),
    (b"\x07A", ""),
    (b"\x08f", " FieldDecl f 0"),
    (b"\x08f/", ""),
    (b"\x09\xc3\xa9", " Ref \u{e9} 0"),
    (b"\x09\xc3", ""),
    (b"\x0af", ""),
    (b"", ""),
];

#[test]
fn words(rt: HostRuntime) -> Result<(), Fail> {
    for (word, row) in &WORDS {
        let answer = file(rt.alloc(), of_word(rt.alloc(), word)?)?;
        let want = if row.is_empty() {
            String::from_str(rt.alloc(), "bad 40")?
        } else {
            format!(in rt.alloc(); "[A.java 1 ]{row}")?
        };
        assert_eq!(rt; answer.as_str(), want.as_str(), "{word:?}");
    }
    Ok(())
}

/// A file of one document and 17 words, up to its first block, which begins at byte 36. The second block
/// begins at byte 309.
const BEFORE_BLOCKS: [u8; 36] =
    *b"JXF2\0\0\0\x01\0\x06A.java\0\0\0\0\0\0\0\x01\0\0\0\x11\0\0\0\x24\0\0\x01\x35";

/// The file of one document and of the 17 names `a` to `q` that it refers to.
fn of_17_words(alloc: Global) -> Result<Vec<u8>, AllocError> {
    let mut bytes = Vec::from_slice(alloc, &BEFORE_BLOCKS)?;
    bytes.extend_from_slice(b"\0\0\0\0\0\0\0\x02\x09a\0\0\0\x01\0\0\0\0")?;
    for letter in b"bcdefghijklmnop" {
        bytes.extend_from_slice(b"\0\0\0\x01\0\0\0\x01")?;
        bytes.push(*letter)?;
        bytes.extend_from_slice(b"\0\0\0\x01\0\0\0\0")?;
    }
    bytes.extend_from_slice(b"\0\0\0\0\0\0\0\x02\x09q\0\0\0\x01\0\0\0\0")?;
    Ok(bytes)
}

/// The rows of all words but the first two and the last.
const MIDDLE: &str =
    " Ref c 0 Ref d 0 Ref e 0 Ref f 0 Ref g 0 Ref h 0 Ref i 0 Ref j 0 Ref k 0 Ref l 0 Ref m 0 Ref n 0 Ref o 0 Ref p 0";

const BLOCKS: [Change; 16] = [
    (27, 16, "bad 32"),
    (27, 18, "bad 327"),
    (31, 0x23, "bad 28"),
    (35, 0x34, "bad 32"),
    (32, 1, "bad 32"),
    (57, 3, "bad 54"),
    (62, b'a', "bad 62"),
    (62, b'c', "bad 79"),
    (295, 0, "bad 300"),
    (312, 1, "bad 309"),
    (312, 2, "bad 309"),
    (316, 1, "bad 317"),
    (317, 8, "bad 317"),
    (318, b'o', "bad 317"),
    (318, b'p', "bad 317"),
    (326, 1, "bad 323"),
];

#[test]
fn blocks(rt: HostRuntime) -> Result<(), Fail> {
    let words = of_17_words(rt.alloc())?;
    assert_eq!(rt; words.len(), 327);
    for change in &BLOCKS {
        let answer = one_byte(rt.alloc(), &words, change)?;
        assert_eq!(rt; answer.as_str(), change.2, "{change:?}");
    }
    Ok(())
}

/// A change, and the first two rows and the last after it.
const READ: [(usize, u8, &str, &str); 4] = [
    (0, b'J', " Ref a 0 Ref b 0", " Ref q 0"),
    (57, 2, " Ref a 0 Ref ab 0", " Ref q 0"),
    (45, b'A', " Ref A 0 Ref b 0", " Ref q 0"),
    (318, b'z', " Ref a 0 Ref b 0", " Ref z 0"),
];

#[test]
fn read_blocks(rt: HostRuntime) -> Result<(), Fail> {
    let words = of_17_words(rt.alloc())?;
    for (at, byte, first, last) in &READ {
        let answer = one_byte(rt.alloc(), &words, &(*at, *byte, ""))?;
        let want = format!(in rt.alloc(); "[A.java 1 ]{first}{MIDDLE}{last}")?;
        assert_eq!(rt; answer.as_str(), want.as_str());
    }
    Ok(())
}

/// Two changes of the file of 17 words: blocks are read before their offsets, and these in order.
const TWICE: [(Change, Change); 3] = [
    ((31, 0x23, ""), (326, 1, "bad 323")),
    ((35, 0x34, ""), (31, 0x25, "bad 28")),
    ((31, 0x23, ""), (27, 18, "bad 327")),
];

#[test]
fn two_faults(rt: HostRuntime) -> Result<(), Fail> {
    for pair in &TWICE {
        let (at, byte, _) = pair.0;
        let mut words = of_17_words(rt.alloc())?;
        assert!(rt; at < words.len());
        words[at] = byte;
        let answer = one_byte(rt.alloc(), &words, &pair.1)?;
        assert_eq!(rt; answer.as_str(), pair.1.2);
    }
    Ok(())
}
