ghost use Rattle.std.specs.Prelude.{◌≡◌, ◌≤◌, List, map, chars, length, false};
ghost use Rattle.java_tree.specs.declared.token.Token.{Token};
ghost use Rattle.java_tree.specs.declared.outline.Level.TheVariants.{Java14};
ghost use Rattle.java_model.specs.Lexical.Escapes.{raw};
ghost use Rattle.java_model.specs.Lexical.Tokens.{without_sub, HasTokens};
ghost use Rattle.java_model.specs.Lexical.Faults.{LexicalFault, HasFault};
ghost use Rattle.java_scan.specs.Unescaping.{escapes_from};
ghost use Rattle.java_scan.specs.Reports.{Reports, TellsTokens, TellsFault};

use crate::cursor::Cursor;
use crate::elements::tokens;
use crate::escapes::has_escape;
use crate::fault::ScanFault;
use crate::joining::unescape;
use crate::moving::{moved_fault, moved_tokens};
use java_tree::{Level, MAX_TEXT, Token};
use std::alloc::Global;

/// A text without the Sub that may be its last character (JLS 3.5).
fn without_sub(text: &str) -> &str
    ensures value { map raw (chars result.now) ≡ without_sub (map raw (chars text.now)) }
    ensures shorter { length result.now ≤ length text.now }
{
    let bytes = text.as_bytes();
    let len = bytes.len();
    if len > 0 && bytes[len - 1] == 26 {
        return &text[..len - 1];
    }
    text
}

/// The tokens of a text without Unicode escapes (JLS 3.3), or its first fault.
fn scan_plain(alloc: Global, level: Level, text: &str) -> Result<Vec<Token>, ScanFault>
    requires length { length text.now ≤ MAX_TEXT }
    requires plain { escapes_from false (chars text.now) ≡ false }
    ensures { Reports level text.now result }
{
    let mut cursor = Cursor::start(without_sub(text));
    tokens(alloc, level, &mut cursor)
}

/// The tokens of a text that may have Unicode escapes, or its first fault.
fn scan_escaped(alloc: Global, level: Level, text: &str) -> Result<Vec<Token>, ScanFault>
    requires { length text.now ≤ MAX_TEXT }
    ensures { Reports level text.now result }
{
    let unescaped = unescape(alloc, text)?;
    let places = unescaped.places.as_slice();
    let mut cursor = Cursor::start(without_sub(unescaped.text.as_str()));
    match tokens(alloc, level, &mut cursor) {
        Ok(found) => moved_tokens(alloc, places, found),
        Err(fault) => Err(moved_fault(places, fault)),
    }
}

/// The tokens of a text at a source level, or its first fault. Spans and places are bytes of the text;
/// `ScanFault::NoMemory` if memory runs out.
pub fn scan_at(alloc: Global, level: Level, text: &str) -> Result<Vec<Token>, ScanFault>
    requires { length text.now ≤ MAX_TEXT }
    ensures answer { Reports level text.now result }
    ensures tokens_exactly { (tokens : List Token) → HasTokens level text.now tokens → TellsTokens tokens result }
    ensures fault_exactly { (fault : LexicalFault) → HasFault level text.now fault → TellsFault fault result }
{
    if has_escape(text) {
        return scan_escaped(alloc, level, text);
    }
    scan_plain(alloc, level, text)
}

/// The tokens of a text of Java 1.4, or its first fault. Spans and places are bytes of the text;
/// `ScanFault::NoMemory` if memory runs out.
pub fn scan(alloc: Global, text: &str) -> Result<Vec<Token>, ScanFault>
    requires { length text.now ≤ MAX_TEXT }
    ensures answer { Reports Java14 text.now result }
    ensures tokens_exactly { (tokens : List Token) → HasTokens Java14 text.now tokens → TellsTokens tokens result }
    ensures fault_exactly { (fault : LexicalFault) → HasFault Java14 text.now fault → TellsFault fault result }
{
    scan_at(alloc, Level::Java14, text)
}
