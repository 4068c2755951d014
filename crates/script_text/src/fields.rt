ghost use Rattle.std.specs.Prelude.{◌≡◌, ℕ, ◌<◌, ◌^◌, Some};
ghost use Rattle.std.specs.Fmt.{decimal};
ghost use Rattle.std.specs.Str.{bytes_eq};
ghost use Rattle.script_text.specs.Inner.Reading.{Gives, literal_at, field_at, text_in, text_field_at, number_in, number_field_at, text_at};

use crate::fault::ScriptFault;
use itoa::Buffer;
use java_tree::{LF, Text};
use memchr::memchr;
use std::alloc::Global;
use std::str;

/// The bytes after a literal.
pub fn after_literal<'a>(bytes: &'a [u8], literal: &[u8]) -> Result<&'a [u8], ScriptFault>
    ensures { Gives (λ rest. rest.now) result (literal_at literal.now bytes.now) }
{
    match bytes.strip_prefix(literal) {
        Some(rest) => Ok(rest),
        None => Err(ScriptFault::NotBuilt),
    }
}

/// The bytes before the first separator, and those after it.
pub(crate) fn field(bytes: &[u8], separator: u8) -> Result<(&[u8], &[u8]), ScriptFault>
    ensures { Gives (λ f. (f.0.now, f.1.now)) result (field_at separator bytes.now) }
{
    match memchr(separator, bytes) {
        Some(at) => Ok((&bytes[..at], &bytes[at + 1..])),
        None => Err(ScriptFault::NotBuilt),
    }
}

/// A text of these bytes, if they are UTF-8.
#[tactic(auto, unfolding(crate::specs::Inner::Reading::text_in))]
fn text_in(alloc: Global, bytes: &[u8]) -> Result<Text, ScriptFault>
    ensures { Gives (λ t. t) result (text_in bytes.now) }
{
    match str::from_utf8(bytes) {
        Ok(characters) => Ok(Text::from_str(alloc, characters)?),
        Err(_) => Err(ScriptFault::NotBuilt),
    }
}

/// The text before the first separator, and the bytes after it.
#[tactic(auto, unfolding(crate::specs::Inner::Reading::text_field_at))]
pub fn text_field(alloc: Global, bytes: &[u8], separator: u8) -> Result<(Text, &[u8]), ScriptFault>
    ensures { Gives (λ f. (f.0, f.1.now)) result (text_field_at separator bytes.now) }
{
    let (front, rest) = field(bytes, separator)?;
    Ok((text_in(alloc, front)?, rest))
}

/// The number that a word spells, and some number or none for a word that spells none.
fn parsed(word: &[u8]) -> Option<u64>
    ensures { (n : ℕ) → n < 2 ^ 64 → word.now ≡ decimal n → result ≡ Some n }
{
    match str::from_utf8(word) {
        Ok(text) => text.parse().ok(),
        Err(_) => None,
    }
}

/// Whether a word spells the number without sign and leading zero.
fn is_spelled(word: &[u8], n: u64) -> bool
    ensures { result ≡ bytes_eq (decimal n) word.now }
{
    Buffer::new().format(n).as_bytes() == word
}

/// The number that is spelled without sign and leading zero, if it isn't over the limit.
fn number(word: &[u8], limit: u64) -> Result<u64, ScriptFault>
    ensures { Gives (λ n. n) result (number_in limit word.now) }
{
    let n = match parsed(word) {
        Some(n) => n,
        None => return Err(ScriptFault::NotBuilt),
    };
    if n > limit || !is_spelled(word, n) {
        return Err(ScriptFault::NotBuilt);
    }
    Ok(n)
}

/// The number before the first separator, and the bytes after it.
#[tactic(auto, unfolding(crate::specs::Inner::Reading::number_field_at))]
pub fn number_field(bytes: &[u8], separator: u8, limit: u64) -> Result<(u64, &[u8]), ScriptFault>
    ensures { Gives (λ f. (f.0, f.1.now)) result (number_field_at separator limit bytes.now) }
{
    let (word, rest) = field(bytes, separator)?;
    Ok((number(word, limit)?, rest))
}

/// A text of so many bytes, and the bytes after its LF.
#[tactic(auto, unfolding(crate::specs::Inner::Reading::text_at))]
pub fn text_of(alloc: Global, bytes: &[u8], len: usize) -> Result<(Text, &[u8]), ScriptFault>
    ensures { Gives (λ f. (f.0, f.1.now)) result (text_at len bytes.now) }
{
    if len >= bytes.len() || bytes[len] != LF {
        return Err(ScriptFault::NotBuilt);
    }
    Ok((text_in(alloc, &bytes[..len])?, &bytes[len + 1..]))
}
