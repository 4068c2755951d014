ghost use Rattle.std.specs.Prelude.{◌≤◌, length};

use super::*;
use java_tree::{Level, MAX_TEXT, Token, TokenKind};
use std::alloc::{AllocError, Global};
use std::test::*;

/// Each text, and its tokens in a row: the kind's letter, the spelling, the span.
const SCANNED: [(&str, &str); 6] = [
    (
        "class \\u0041 {}",
        "K:class:0:5 I:A:6:12 S:{:13:14 S:}:14:15 ",
    ),
    (
        "\\uuu0061\\u000Ab \"\\\\u0061\"\\u001a",
        "I:a:0:8 I:b:14:15 T:\"\\\\u0061\":16:25 ",
    ),
    (
        "'\\uD834\\uDD1E' '\\uDD1E'",
        "C:'\u{1d11e}':0:14 C:'\u{fffd}':15:23 ",
    ),
    (
        "\"\\uD834a\" \"\\uD834\\uD834\\uDD1E\"",
        "T:\"\u{fffd}a\":0:9 T:\"\u{fffd}\u{1d11e}\":10:30 ",
    ),
    (
        "0x1F 012l 09 1.5e3f .5 1d 'a' '\\377' \"\\\"\"",
        "D:0x1F:0:4 L:012l:5:9 D:0:10:11 D:9:11:12 F:1.5e3f:13:19 O:.5:20:22 O:1d:23:25 C:'a':26:29 C:'\\377':30:36 T:\"\\\"\":37:41 ",
    ),
    (
        "/**/a>>>=b // \u{e9}\r/=assert\x1a",
        "I:a:4:5 S:>>>=:5:9 I:b:9:10 S:/=:17:19 K:assert:19:25 ",
    ),
];

/// Each text, and its fault.
const FAULTS: [(&str, ScanFault); 8] = [
    ("# \\uuG", ScanFault::BadEscape(2)),
    ("\\u0041 \\u0022b", ScanFault::Unclosed(7)),
    ("\\u0041\\u0023", ScanFault::BadChar(6)),
    ("class A {} /* x", ScanFault::Unclosed(11)),
    ("a \"b\\q\n", ScanFault::BadChar(4)),
    ("''", ScanFault::BadChar(0)),
    ("'\\477'", ScanFault::Unclosed(0)),
    ("a#", ScanFault::BadChar(1)),
];

fn letter(kind: TokenKind) -> &'static str {
    match kind {
        TokenKind::Identifier => "I",
        TokenKind::Keyword => "K",
        TokenKind::IntLit => "D",
        TokenKind::LongLit => "L",
        TokenKind::FloatLit => "F",
        TokenKind::DoubleLit => "O",
        TokenKind::CharLit => "C",
        TokenKind::StringLit => "T",
        TokenKind::Symbol => "S",
    }
}

fn fault_word(alloc: Global, fault: &ScanFault) -> Result<String, AllocError> {
    match fault {
        ScanFault::BadEscape(at) => format!(in alloc; "escape {at}"),
        ScanFault::BadChar(at) => format!(in alloc; "char {at}"),
        ScanFault::Unclosed(at) => format!(in alloc; "unclosed {at}"),
        ScanFault::NoMemory => format!(in alloc; "memory"),
    }
}

fn shown(alloc: Global, tokens: &[Token]) -> Result<String, AllocError> {
    let mut out = String::new(alloc);
    for token in tokens {
        let name = token.name.as_str();
        let kind = letter(token.kind);
        let start = token.span.start;
        let end = token.span.end;
        let one = format!(in alloc; "{kind}:{name}:{start}:{end} ")?;
        out.push_str(one.as_str())?;
    }
    Ok(out)
}

fn outcome(alloc: Global, level: Level, text: &str) -> Result<String, AllocError>
    requires { length text.now ≤ MAX_TEXT }
{
    match scan_at(alloc, level, text) {
        Ok(tokens) => shown(alloc, &tokens),
        Err(fault) => fault_word(alloc, &fault),
    }
}

#[test]
fn texts_and_their_tokens(rt: HostRuntime) -> Result<(), Fail> {
    for (text, want) in SCANNED {
        assert!(rt; text.len() <= MAX_TEXT);
        let spelled = outcome(rt.alloc(), Level::Java14, text)?;
        assert_eq!(rt; spelled.as_str(), want, "of {text:?}");
    }
    for (text, want) in FAULTS {
        assert!(rt; text.len() <= MAX_TEXT);
        let spelled = outcome(rt.alloc(), Level::Java14, text)?;
        let wanted = fault_word(rt.alloc(), &want)?;
        assert_eq!(rt; spelled.as_str(), wanted.as_str(), "of {text:?}");
    }
    let spelled = outcome(rt.alloc(), Level::Java13, "assert")?;
    assert_eq!(rt; spelled.as_str(), "I:assert:0:6 ");
    let tokens = scan(rt.alloc(), "\\u0061ssert")?;
    let spelled = shown(rt.alloc(), &tokens)?;
    assert_eq!(rt; spelled.as_str(), "K:assert:0:11 ");
    Ok(())
}
