//! Which words are reserved (JLS 3.9, 3.10.3, 3.10.7).

ghost use Rattle.std.specs.Prelude.{◌≡◌, ◌==◌, ◌++◌, map, filter};
ghost use Rattle.std.specs.List.{list_any};
ghost use Rattle.std.specs.Str.{bytes_eq};
ghost use Rattle.java_model.specs.Lexical.Words.{keywords, literal_words, is_listed, added_keywords, is_reserved};
ghost use Rattle.java_model.proofs.Lexical.Reading.{begins, word_kind};

use java_tree::{ADDED_KEYWORDS, Level, TokenKind};

/// The reserved words that begin with a letter, but for `assert`.
#[tactic(none)]
fn reserved_words_from(letter: u8) -> &'static [&'static str]
    ensures { map (λ w. w.now) result.now ≡ filter (begins (λ c. c == letter)) (keywords ++ literal_words) }
{
    match letter {
        b'a' => &["abstract"],
        b'b' => &["boolean", "break", "byte"],
        b'c' => &["case", "catch", "char", "class", "const", "continue"],
        b'd' => &["default", "do", "double"],
        b'e' => &["else", "extends"],
        b'f' => &["final", "finally", "float", "for", "false"],
        b'g' => &["goto"],
        b'i' => &[
            "if",
            "implements",
            "import",
            "instanceof",
            "int",
            "interface",
        ],
        b'l' => &["long"],
        b'n' => &["native", "new", "null"],
        b'p' => &["package", "private", "protected", "public"],
        b'r' => &["return"],
        b's' => &[
            "short",
            "static",
            "strictfp",
            "super",
            "switch",
            "synchronized",
        ],
        b't' => &["this", "throw", "throws", "transient", "try", "true"],
        b'v' => &["void", "volatile"],
        b'w' => &["while"],
        _ => &[],
    }
}

/// Whether a word is one of these.
fn is_one_of(words: &[&str], word: &str) -> bool
    ensures { result ≡ list_any (λ w. bytes_eq w.now word.now) words.now }
{
    words.iter().any(|w| *w == word)
}

/// Whether a word is a keyword of some levels alone.
fn is_added(level: Level, word: &str) -> bool
    ensures { result ≡ is_listed (added_keywords level) word.now }
{
    match level {
        Level::Java13 => false,
        Level::Java14 => is_one_of(&ADDED_KEYWORDS, word),
    }
}

/// Whether a word is reserved. It is compared with those of its first letter alone.
fn is_reserved(level: Level, word: &str) -> bool
    ensures { result ≡ is_reserved level word.now }
{
    let bytes = word.as_bytes();
    if bytes.is_empty() {
        return false;
    }
    is_one_of(reserved_words_from(bytes[0]), word) || is_added(level, word)
}

/// What a word is: a keyword, or an identifier.
pub fn word_kind(level: Level, word: &str) -> TokenKind
    ensures { result ≡ word_kind (is_reserved level word.now) }
{
    if is_reserved(level, word) {
        TokenKind::Keyword
    } else {
        TokenKind::Identifier
    }
}
