//! Character literals (JLS 3.10.4) and string literals (JLS 3.10.5).

ghost use Rattle.std.specs.Prelude.{◌≡◌, if◌then◌else◌};
ghost use Rattle.java_model.specs.Lexical.Faults.{is_line_over};
ghost use Rattle.java_model.proofs.Lexical.Reading.{begins, is_bare};
ghost use Rattle.java_scan.specs.declared.class.Class.TheVariants.{Escaped};
ghost use Rattle.java_scan.specs.Classes.{passes};
ghost use Rattle.java_scan.specs.Steps.{Gives, sees_escape, after_escape, after_escaped, after_octal, after_string_characters, string_step, has_one, after_one, character_step};

use crate::class::{Class, is_line_end};
use crate::cursor::Cursor;
use crate::fault::ScanFault;
use java_tree::TokenKind;

/// Whether a character may stand between such quotes without a backslash.
fn is_bare(quote: char, c: char) -> bool
    ensures { result ≡ is_bare quote c }
{
    !(c == quote || c == '\\' || is_line_end(c))
}

impl Cursor<'_> {
    /// Moves on over a backslash and what it escapes, if it escapes something, and says whether.
    #[tactic(auto, unfolding(crate::specs::Steps::sees_escape, crate::specs::Steps::after_escape))]
    fn skip_escape(&mut self) -> bool
        ensures value { result ≡ sees_escape self.old }
        ensures after { self.new ≡ (if sees_escape self.old then after_escape self.old else self.old) }
    {
        let mut end = self.copy();
        end.skip_if(Class::Backslash);
        if !end.skip_if(Class::Escaped) {
            return false;
        }
        *self = end;
        true
    }

    /// Moves on over the characters of a string. An octal escape goes on as characters.
    fn skip_string_characters(&mut self)
        ensures { self.new ≡ after_string_characters self.old }
    {
        while let Some(c) = self.peek() {
            if c == '\\' {
                if !self.skip_escape() {
                    return;
                }
            } else if is_bare('"', c) {
                self.skip(c);
            } else {
                return;
            }
        }
    }

    /// Whether the line or the text is over here.
    fn is_line_over(&self) -> bool
        ensures { result ≡ is_line_over self.now.left }
    {
        match self.peek() {
            Some(c) => is_line_end(c),
            None => true,
        }
    }

    /// Moves on over the string literal that begins with the quote here.
    #[tactic(auto, unfolding(crate::specs::Steps::string_step, crate::specs::Steps::string_end_step))]
    pub fn string(&mut self) -> Result<Option<TokenKind>, ScanFault>
        ensures { Gives result self.new (string_step self.old) }
    {
        let start = self.offset();
        self.skip_if(Class::DoubleQuote);
        self.skip_string_characters();
        if self.skip_if(Class::DoubleQuote) {
            return Ok(Some(TokenKind::StringLit));
        }
        if self.is_line_over() {
            return Err(ScanFault::Unclosed(start));
        }
        Err(ScanFault::BadChar(self.offset()))
    }

    /// Moves on over the octal digits after the first that stands at `start`: as many as an escape may have.
    #[tactic(auto, unfolding(crate::specs::Steps::after_octal))]
    fn skip_octal(&mut self, start: &Self)
        ensures { self.new ≡ after_octal start.now self.old }
    {
        if !start.sees(Class::OctalDigit) {
            return;
        }
        if !self.skip_if(Class::OctalDigit) {
            return;
        }
        if start.sees(Class::ZeroToThree) {
            self.skip_if(Class::OctalDigit);
        }
    }

    /// Moves on over what a backslash escapes, if something stands there, and says whether.
    #[tactic(auto, unfolding(crate::specs::Steps::after_escaped))]
    fn skip_escaped(&mut self) -> bool
        ensures value { result ≡ begins (passes Escaped) self.old.left }
        ensures after { self.new ≡ after_escaped self.old }
    {
        let start = self.copy();
        if !self.skip_if(Class::Escaped) {
            return false;
        }
        self.skip_octal(&start);
        true
    }

    /// Moves on over one character of a character literal, or one escape, if it is here.
    fn skip_one(&mut self) -> bool
        ensures value { result ≡ has_one self.old }
        ensures after { self.new ≡ after_one self.old }
    {
        let Some(c) = self.peek() else {
            return false;
        };
        if c != '\\' {
            if !is_bare('\'', c) {
                return false;
            }
            self.skip(c);
            return true;
        }
        let mut end = self.copy();
        end.skip(c);
        if !end.skip_escaped() {
            return false;
        }
        *self = end;
        true
    }

    /// Moves on over the character literal that begins with the quote here.
    #[tactic(auto, unfolding(crate::specs::Steps::character_step, crate::specs::Steps::character_end_step))]
    pub fn character(&mut self) -> Result<Option<TokenKind>, ScanFault>
        ensures { Gives result self.new (character_step self.old) }
    {
        let start = self.offset();
        self.skip_if(Class::SingleQuote);
        if self.is_line_over() {
            return Err(ScanFault::Unclosed(start));
        }
        if self.sees(Class::SingleQuote) {
            return Err(ScanFault::BadChar(start));
        }
        if !self.skip_one() {
            return Err(ScanFault::BadChar(self.offset()));
        }
        if self.skip_if(Class::SingleQuote) {
            return Ok(Some(TokenKind::CharLit));
        }
        Err(ScanFault::Unclosed(start))
    }
}
