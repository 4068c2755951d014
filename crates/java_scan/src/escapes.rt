//! Unicode escapes (JLS 3.3).

ghost use Rattle.std.specs.Prelude.{◌≡◌, ◌<◌, ◌^◌, length, chars, false, true};
ghost use Rattle.java_model.specs.Lexical.Escapes.{begins_escape};
ghost use Rattle.java_model.proofs.Lexical.Reading.{begins};
ghost use Rattle.java_scan.specs.declared.class.Class.TheVariants.{LetterU, Backslash};
ghost use Rattle.java_scan.specs.Classes.{passes};
ghost use Rattle.java_scan.specs.Place.{first, after_run, no_backslash};
ghost use Rattle.java_scan.specs.Steps.{after_if};
ghost use Rattle.java_scan.specs.Unescaping.{escapes_from, IsHexDigit, IsFour, IsEscapedUnit, ReadsUnit};

use crate::class::Class;
use crate::cursor::Cursor;

/// Whether some backslash of a text begins a Unicode escape. A backslash after one that may begin one begins none (JLS 3.3).
pub fn has_escape(text: &str) -> bool
    requires { length text.now < 2 ^ 32 }
    ensures { result ≡ escapes_from false (chars text.now) }
{
    let mut cursor = Cursor::start(text);
    while cursor.skip_past_backslash() {
        if cursor.sees(Class::LetterU) {
            return true;
        }
        cursor.skip_if(Class::Backslash);
    }
    false
}

/// A unit's code, and whether an even number of backslashes directly precedes what follows it.
#[derive(Clone, Copy)]
pub struct UnitRead {
    pub code: u32,
    pub even: bool,
}

impl Cursor<'_> {
    /// Moves on over the next backslash, or to the end, and says whether a backslash was left.
    fn skip_past_backslash(&mut self) -> bool
        ensures value { result ≡ begins (passes Backslash) (after_run no_backslash self.old).left }
        ensures after { self.new ≡ after_if (passes Backslash) (after_run no_backslash self.old) }
    {
        self.run_to(b'\\');
        self.skip_if(Class::Backslash)
    }

    /// The value of the hexadecimal digit here, which is passed.
    fn hex_digit(&mut self) -> Option<u32>
        ensures { IsHexDigit self.old result self.new }
    {
        let Some(c) = self.peek() else {
            return None;
        };
        if !Class::HexDigit.has(c) {
            return None;
        }
        self.skip(c);
        c.to_digit(16)
    }

    /// The value of four hexadecimal digits here, which are passed.
    fn four_digits(&mut self) -> Option<u32>
        ensures { IsFour self.old result self.new }
    {
        let Some(a) = self.hex_digit() else {
            return None;
        };
        let Some(b) = self.hex_digit() else {
            return None;
        };
        let Some(c) = self.hex_digit() else {
            return None;
        };
        let Some(d) = self.hex_digit() else {
            return None;
        };
        Some(((a * 16 + b) * 16 + c) * 16 + d)
    }

    /// The unit of an escape after its backslash, which is passed.
    fn escaped_unit(&mut self) -> Option<u32>
        requires { begins (passes LetterU) self.old.left ≡ true }
        ensures { IsEscapedUnit self.old result self.new }
    {
        self.run(Class::LetterU);
        self.four_digits()
    }

    /// Whether a backslash before this place begins an escape, by the backslashes before it.
    fn sees_escape_mark(&self, even: bool) -> bool
        ensures { result ≡ begins_escape even self.now.left }
    {
        even && self.sees(Class::LetterU)
    }

    /// The unit here, which begins with the character and is passed, or none for a bad escape.
    pub fn unit(&mut self, c: char, even: bool) -> Option<UnitRead>
        requires { first self.old.left ≡ Some c }
        ensures { ReadsUnit even self.old result self.new }
    {
        self.skip(c);
        if c != '\\' {
            return Some(UnitRead {
                code: c as u32,
                even: true,
            });
        }
        if !self.sees_escape_mark(even) {
            return Some(UnitRead {
                code: c as u32,
                even: !even,
            });
        }
        match self.escaped_unit() {
            Some(code) => Some(UnitRead { code, even: true }),
            None => None,
        }
    }
}
