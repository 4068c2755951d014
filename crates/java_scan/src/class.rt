ghost use Rattle.std.specs.Prelude.{◌≡◌};
ghost use Rattle.java_model.specs.Lexical.Characters.{is_letter, is_letter_or_digit, is_white, is_line_end};
ghost use Rattle.java_model.proofs.Lexical.Reading.{is_escaped};
ghost use Rattle.unicode_ident.specs.Ident.{is_xid_start, is_xid_continue};
ghost use Rattle.java_scan.specs.Classes.{passes};

use unicode_ident::{is_xid_continue, is_xid_start};

/// A class of characters.
#[derive(Clone, Copy)]
pub enum Class {
    LetterOrDigit,
    AsciiLetter,
    Digit,
    OctalDigit,
    HexDigit,
    NoLineEnd,
    White,
    Zero,
    HexMark,
    ExponentMark,
    Sign,
    FloatSuffix,
    DoubleSuffix,
    LongSuffix,
    Point,
    DoubleQuote,
    SingleQuote,
    LetterU,
    Assign,
    Slash,
    Star,
    Backslash,
    /// What may follow a backslash in a literal (JLS 3.10.6).
    Escaped,
    ZeroToThree,
}

/// Whether a character may start an identifier of Unicode. An ASCII character isn't looked up.
#[inline(always)]
fn starts_identifier(c: char) -> bool
    ensures { result ≡ is_xid_start c }
{
    if c < '\u{80}' {
        return c.is_ascii_alphabetic();
    }
    is_xid_start(c)
}

/// Whether a character may continue an identifier of Unicode. An ASCII character isn't looked up.
#[inline(always)]
fn continues_identifier(c: char) -> bool
    ensures { result ≡ is_xid_continue c }
{
    if c < '\u{80}' {
        return c.is_ascii_alphanumeric() || c == '_';
    }
    is_xid_continue(c)
}

/// Whether a character is a Java letter (JLS 3.8).
#[inline]
pub fn is_letter(c: char) -> bool
    ensures { result ≡ is_letter c }
{
    c == '$' || c == '_' || starts_identifier(c)
}

/// Whether a character is a Java letter or digit (JLS 3.8).
#[inline]
fn is_letter_or_digit(c: char) -> bool
    ensures { result ≡ is_letter_or_digit c }
{
    c == '$' || continues_identifier(c)
}

/// Whether a character is a line end (JLS 3.4).
#[inline]
pub fn is_line_end(c: char) -> bool
    ensures { result ≡ is_line_end c }
{
    c == '\n' || c == '\r'
}

/// Whether a character is white space (JLS 3.6).
#[inline]
pub fn is_white(c: char) -> bool
    ensures { result ≡ is_white c }
{
    c == ' ' || c == '\t' || c == '\x0c' || is_line_end(c)
}

/// Whether a character may follow a backslash in a literal (JLS 3.10.6).
#[inline]
fn is_escaped(c: char) -> bool
    ensures { result ≡ is_escaped c }
{
    c == 'b'
        || c == 't'
        || c == 'n'
        || c == 'f'
        || c == 'r'
        || c == '"'
        || c == '\''
        || c == '\\'
        || (c >= '0' && c <= '7')
}

impl Class {
    /// Whether a character is of the class.
    #[inline(always)]
    #[tactic(auto, unfolding(crate::specs::Classes::passes))]
    pub fn has(self, c: char) -> bool
        ensures { result ≡ passes self c }
    {
        match self {
            Class::LetterOrDigit => is_letter_or_digit(c),
            Class::AsciiLetter => c.is_ascii_alphabetic(),
            Class::Digit => c >= '0' && c <= '9',
            Class::OctalDigit => c >= '0' && c <= '7',
            Class::HexDigit => {
                (c >= '0' && c <= '9') || (c >= 'A' && c <= 'F') || (c >= 'a' && c <= 'f')
            }
            Class::NoLineEnd => !is_line_end(c),
            Class::White => is_white(c),
            Class::Zero => c == '0',
            Class::HexMark => c == 'x' || c == 'X',
            Class::ExponentMark => c == 'e' || c == 'E',
            Class::Sign => c == '+' || c == '-',
            Class::FloatSuffix => c == 'f' || c == 'F',
            Class::DoubleSuffix => c == 'd' || c == 'D',
            Class::LongSuffix => c == 'l' || c == 'L',
            Class::Point => c == '.',
            Class::DoubleQuote => c == '"',
            Class::SingleQuote => c == '\'',
            Class::LetterU => c == 'u',
            Class::Assign => c == '=',
            Class::Slash => c == '/',
            Class::Star => c == '*',
            Class::Backslash => c == '\\',
            Class::Escaped => is_escaped(c),
            Class::ZeroToThree => c >= '0' && c <= '3',
        }
    }
}
