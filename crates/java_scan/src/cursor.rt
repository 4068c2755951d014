ghost use Rattle.std.specs.Prelude.{◌≡◌, ℕ, ◌<◌, ◌≤◌, ◌^◌, take, encode_utf8_all, length};
ghost use Rattle.java_model.proofs.Lexical.Reading.{begins};
ghost use Rattle.java_scan.specs.Place.{place_in, first, next, advance, after_run, differs};
ghost use Rattle.java_scan.specs.declared.class.Class.TheVariants.{LetterOrDigit, White};
ghost use Rattle.java_scan.specs.Classes.{passes};
ghost use Rattle.java_scan.specs.Steps.{after_if};

use crate::class::Class;
use memchr::memchr;
use std::marker::Model;

/// A place in a text, at a character or at the text's end.
#[derive(Drop)]
pub struct Cursor<'a> {
    text: &'a str,
    at: usize,
}

impl<'a> Model for Cursor<'a> {
    ghost use Rattle.std.specs.Prelude.{◌<◌, ◌^◌, length, IsCharBoundary, IsUtf8};
    ghost use Rattle.java_scan.specs.Place.{Place, place_in};

    ghost Value = { Place };

    ghost view = { λ c. place_in c.text.now c.at };

    ghost invariant = { λ c. IsUtf8 c.text.now × IsCharBoundary c.text.now c.at × (length c.text.now < 2 ^ 32) };
}

impl<'a> Cursor<'a> {
    /// The first place of a text.
    pub fn start(text: &'a str) -> Cursor<'a>
        requires { length text.now < 2 ^ 32 }
        ensures { result ≡ place_in text.now 0 }
    {
        Cursor { text, at: 0 }
    }

    /// The same place.
    pub fn copy(&self) -> Cursor<'a>
        ensures { result ≡ self.now }
    {
        Cursor {
            text: self.text,
            at: self.at,
        }
    }

    /// The length of the text in bytes.
    pub fn len(&self) -> usize
        ensures { result ≡ length self.now.text }
    {
        self.text.len()
    }

    /// The byte of the text at which it is.
    pub fn offset(&self) -> u32
        ensures { result ≡ self.now.at }
    {
        self.at as u32
    }

    /// The character here. An ASCII character isn't decoded.
    #[inline(always)]
    pub fn peek(&self) -> Option<char>
        ensures { result ≡ first self.now.left }
    {
        let bytes = self.text.as_bytes();
        if self.at >= bytes.len() {
            return None;
        }
        let byte = bytes[self.at];
        if byte < 128 {
            return Some(byte as char);
        }
        self.text[self.at..].chars().next()
    }

    /// Moves on over the character here.
    #[inline(always)]
    pub fn skip(&mut self, c: char)
        requires { first self.old.left ≡ Some c }
        ensures { self.new ≡ next self.old }
    {
        self.at += c.len_utf8();
    }

    /// The text from an earlier place on up to here.
    pub fn text_since(&self, start: &Cursor<'a>) -> &'a str
        requires text { start.now.text ≡ self.now.text }
        requires before { start.now.at ≤ self.now.at }
        ensures { (n : ℕ) → self.now ≡ advance n start.now → result.now ≡ encode_utf8_all (take n start.now.left) }
    {
        &self.text[start.at..self.at]
    }

    /// Whether a character of the class is here.
    #[inline(always)]
    pub fn sees(&self, class: Class) -> bool
        ensures { result ≡ begins (passes class) self.now.left }
    {
        match self.peek() {
            Some(c) => class.has(c),
            None => false,
        }
    }

    /// Moves on over a character of the class, if one is here, and says whether.
    #[inline(always)]
    #[tactic(auto, unfolding(crate::specs::Steps::after_if))]
    pub fn skip_if(&mut self, class: Class) -> bool
        ensures value { result ≡ begins (passes class) self.old.left }
        ensures after { self.new ≡ after_if (passes class) self.old }
    {
        match self.peek() {
            Some(c) if class.has(c) => {
                self.skip(c);
                true
            }
            _ => false,
        }
    }

    /// Moves on over the letters and digits here, which most of a text is made of: most are letters of ASCII.
    pub fn run_word(&mut self)
        ensures { self.new ≡ after_run (passes LetterOrDigit) self.old }
    {
        self.run(Class::AsciiLetter);
        self.run(Class::LetterOrDigit);
    }

    /// Moves on over the run of characters of the class.
    #[inline(always)]
    pub fn run(&mut self, class: Class)
        ensures { self.new ≡ after_run (passes class) self.old }
    {
        while let Some(c) = self.peek() {
            if !class.has(c) {
                return;
            }
            self.skip(c);
        }
    }

    /// Moves on over white space, and gives the character after it.
    #[inline(always)]
    pub fn peek_past_white(&mut self) -> Option<char>
        ensures value { result ≡ first self.new.left }
        ensures after { self.new ≡ after_run (passes White) self.old }
    {
        self.run(Class::White);
        self.peek()
    }

    /// Moves on to the next character that is this ASCII one, or to the end. No other has a byte of it.
    pub fn run_to(&mut self, mark: u8)
        requires { mark < 128 }
        ensures { self.new ≡ after_run (differs mark) self.old }
    {
        let bytes = self.text.as_bytes();
        match memchr(mark, &bytes[self.at..]) {
            Some(count) => self.at += count,
            None => self.at = bytes.len(),
        }
    }
}
