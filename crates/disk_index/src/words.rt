ghost use Rattle.std.specs.Prelude.{◌≡◌, ◌++◌, drop, true};
ghost use Rattle.std.specs.Str.{is_utf8};
ghost use Rattle.java_tree.specs.Keys.{category_at, is_before, is_key, is_word};
ghost use Rattle.java_model.specs.IndexFile.Content.{is_path_after};
ghost use Rattle.java_model.specs.IndexFile.Reading.{may_share, is_greater_suffix};

use index_keys::{category_at, has_fields};
use java_tree::is_source_path;
use std::cmp::Ordering;

/// Whether a text comes before another in the order of bytes.
pub(crate) fn is_before(left: &[u8], right: &[u8]) -> bool
    ensures { result ≡ is_before left.now right.now }
{
    match left.cmp(&right) {
        Ordering::Less => true,
        Ordering::Equal => false,
        Ordering::Greater => false,
    }
}

/// Whether bytes are UTF-8.
fn is_text(bytes: &[u8]) -> bool
    ensures { result ≡ is_utf8 bytes.now }
{
    match str::from_utf8(bytes) {
        Ok(_) => true,
        Err(_) => false,
    }
}

/// Whether a path is that of a Java source and comes after the previous one.
pub(crate) fn is_path_after(previous: &[u8], path: &[u8]) -> bool
    ensures { result ≡ is_path_after previous.now path.now }
{
    match str::from_utf8(path) {
        Ok(text) => is_before(previous, path) && is_source_path(text),
        Err(_) => false,
    }
}

/// Whether bytes are the word of a key.
pub(crate) fn is_word(word: &[u8]) -> bool
    ensures { result ≡ is_word word.now }
{
    match word {
        [] => false,
        [byte, text @ ..] => (1..=9).contains(byte) && is_key(*byte, text),
    }
}

fn is_key(byte: u8, text: &[u8]) -> bool
    ensures { result ≡ is_key (category_at byte) text.now }
{
    is_text(text) && has_fields(category_at(byte), text)
}

/// Whether a word at this place of its block may share so many bytes with the previous one.
pub(crate) fn may_share(place: usize, previous: &[u8], shared: usize) -> bool
    ensures { result ≡ may_share place previous.now shared }
{
    if place == 0 {
        shared == 0
    } else {
        shared <= previous.len()
    }
}

/// Whether a suffix isn't empty and begins with a greater byte than what it replaces, if there is one.
pub(crate) fn is_greater_suffix(replaced: &[u8], suffix: &[u8]) -> bool
    ensures { result ≡ is_greater_suffix replaced.now suffix.now }
{
    match (replaced, suffix) {
        (_, []) => false,
        ([], _) => true,
        ([old, ..], [new, ..]) => old < new,
    }
}

/// The text of bytes that are UTF-8.
pub(crate) fn text_of(bytes: &[u8]) -> &str
    requires { is_utf8 bytes.now ≡ true }
    ensures { result.now ≡ bytes.now }
{
    match str::from_utf8(bytes) {
        Ok(text) => text,
        Err(_) => "",
    }
}
