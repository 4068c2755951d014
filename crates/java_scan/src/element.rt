//! Input elements (JLS 3.5).

ghost use Rattle.std.specs.Prelude.{◌≡◌, Some};
ghost use Rattle.java_model.proofs.Lexical.Reading.{family_of, next_of};
ghost use Rattle.java_scan.specs.Place.{first};
ghost use Rattle.java_scan.specs.Families.{family_held};
ghost use Rattle.java_scan.specs.Steps.{Gives, word_step, symbol_step, slashed_step, family_step};
ghost use Rattle.java_scan.specs.Steps.Step.{taken};
ghost use Rattle.java_scan.specs.Next.{step_of};

use crate::class::{Class, is_letter, is_white};
use crate::cursor::Cursor;
use crate::fault::ScanFault;
use crate::words::word_kind;
use java_tree::{Level, TokenKind};

/// What a character may begin.
#[derive(Clone, Copy)]
enum Begun {
    White,
    Word,
    Number,
    Point,
    String,
    Character,
    Slash,
    Symbol,
}

#[inline(always)]
#[tactic(auto, unfolding(java_model::proofs::Lexical::Reading::family_of, crate::specs::Classes::passes))]
fn family_of(c: char) -> Begun
    ensures { family_held result ≡ family_of c }
{
    if is_white(c) {
        return Begun::White;
    }
    if is_letter(c) {
        return Begun::Word;
    }
    if Class::Digit.has(c) {
        return Begun::Number;
    }
    if c == '.' {
        return Begun::Point;
    }
    if c == '"' {
        return Begun::String;
    }
    if c == '\'' {
        return Begun::Character;
    }
    if c == '/' {
        return Begun::Slash;
    }
    Begun::Symbol
}

impl Cursor<'_> {
    /// The word here.
    fn word(&mut self, level: Level, c: char) -> TokenKind
        requires { first self.old.left ≡ Some c }
        ensures { taken result self.new ≡ word_step level self.old }
    {
        let start = self.copy();
        self.skip(c);
        self.run_word();
        word_kind(level, self.text_since(&start))
    }

    /// The symbol here.
    #[tactic(auto, unfolding(crate::specs::Steps::symbol_step))]
    fn symbol(&mut self, c: char) -> Result<Option<TokenKind>, ScanFault>
        requires { first self.old.left ≡ Some c }
        ensures { Gives result self.new (symbol_step self.old) }
    {
        if self.skip_symbol(c) {
            return Ok(Some(TokenKind::Symbol));
        }
        Err(ScanFault::BadChar(self.offset()))
    }

    /// What begins with a slash: a comment or an operator.
    #[tactic(auto, unfolding(crate::specs::Steps::slashed_step, crate::specs::Steps::after_slash_step))]
    fn slashed(&mut self) -> Result<Option<TokenKind>, ScanFault>
        ensures { Gives result self.new (slashed_step self.old) }
    {
        let start = self.offset();
        self.skip_if(Class::Slash);
        if self.skip_if(Class::Slash) {
            self.run(Class::NoLineEnd);
            return Ok(None);
        }
        if self.skip_if(Class::Star) {
            if self.skip_comment_tail() {
                return Ok(None);
            }
            return Err(ScanFault::Unclosed(start));
        }
        self.skip_if(Class::Assign);
        Ok(Some(TokenKind::Symbol))
    }

    /// Moves on over what a character of this family begins here, and gives its kind if it is a token.
    #[tactic(auto, unfolding(crate::specs::Steps::family_step))]
    fn begun(
        &mut self,
        family: Begun,
        level: Level,
        c: char,
    ) -> Result<Option<TokenKind>, ScanFault>
        requires { first self.old.left ≡ Some c }
        ensures { Gives result self.new (family_step level (family_held family) self.old) }
    {
        match family {
            Begun::White => {
                self.skip(c);
                Ok(None)
            }
            Begun::Word => Ok(Some(self.word(level, c))),
            Begun::Number => Ok(Some(self.number())),
            Begun::Point => Ok(Some(self.point())),
            Begun::String => self.string(),
            Begun::Character => self.character(),
            Begun::Slash => self.slashed(),
            Begun::Symbol => self.symbol(c),
        }
    }

    /// Moves on over the element here, which begins with the character, and gives its kind if it is a token.
    pub fn element(&mut self, level: Level, c: char) -> Result<Option<TokenKind>, ScanFault>
        requires { first self.old.left ≡ Some c }
        ensures { Gives result self.new (step_of self.old (next_of level self.old.left)) }
    {
        self.begun(family_of(c), level, c)
    }
}
