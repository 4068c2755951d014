//! Separators (JLS 3.11) and operators (JLS 3.12).

ghost use Rattle.std.specs.Prelude.{◌≡◌, ◌==◌, codes};
ghost use Rattle.java_model.specs.Lexical.Characters.{is_one_of};
ghost use Rattle.java_model.proofs.Lexical.Reading.{begins};
ghost use Rattle.java_scan.specs.Place.{first};
ghost use Rattle.java_scan.specs.Steps.{has_symbol, after_symbol, after_if, greater_end, symbol_end, symbol_start};

use crate::class::Class;
use crate::cursor::Cursor;

/// The ways in which a symbol may go on.
#[derive(Clone, Copy)]
enum SymbolStart {
    /// It ends.
    Alone,
    /// An `=` may follow.
    Assigning,
    /// The same character or an `=` may follow.
    Doubling,
    /// `<`, `<=`, `<<` or `<<=`.
    Less,
    /// `>`, `>=`, `>>`, `>>=`, `>>>` or `>>>=`.
    Greater,
    /// It is none.
    Nothing,
}

fn is_alone(c: char) -> bool
    ensures { result ≡ is_one_of (codes "(){}[];,.~?:") c }
{
    c == '('
        || c == ')'
        || c == '{'
        || c == '}'
        || c == '['
        || c == ']'
        || c == ';'
        || c == ','
        || c == '.'
        || c == '~'
        || c == '?'
        || c == ':'
}

fn is_assigning(c: char) -> bool
    ensures { result ≡ is_one_of (codes "=!*/^%") c }
{
    c == '=' || c == '!' || c == '*' || c == '/' || c == '^' || c == '%'
}

fn is_doubling(c: char) -> bool
    ensures { result ≡ is_one_of (codes "+-&|") c }
{
    c == '+' || c == '-' || c == '&' || c == '|'
}

#[tactic(auto, unfolding(crate::specs::Steps::symbol_start))]
fn symbol_start(c: char) -> SymbolStart
    ensures { result ≡ symbol_start c }
{
    if is_alone(c) {
        return SymbolStart::Alone;
    }
    if is_assigning(c) {
        return SymbolStart::Assigning;
    }
    if is_doubling(c) {
        return SymbolStart::Doubling;
    }
    if c == '<' {
        return SymbolStart::Less;
    }
    if c == '>' {
        return SymbolStart::Greater;
    }
    SymbolStart::Nothing
}

impl Cursor<'_> {
    /// Moves on over a character, if it is the one here, and says whether.
    #[tactic(auto, unfolding(crate::specs::Steps::after_if))]
    fn skip_same(&mut self, c: char) -> bool
        ensures value { result ≡ begins (λ x. x == c) self.old.left }
        ensures after { self.new ≡ after_if (λ x. x == c) self.old }
    {
        match self.peek() {
            Some(here) if here == c => {
                self.skip(here);
                true
            }
            _ => false,
        }
    }

    /// Moves on over the longest symbol here, and says whether there is one.
    pub fn skip_symbol(&mut self, c: char) -> bool
        requires { first self.old.left ≡ Some c }
        ensures value { result ≡ has_symbol self.old }
        ensures after { self.new ≡ after_symbol self.old }
    {
        let start = symbol_start(c);
        if let SymbolStart::Nothing = start {
            return false;
        }
        self.skip(c);
        self.symbol_end(start, c);
        true
    }

    /// Moves on over what may follow `>>`.
    #[tactic(auto, unfolding(crate::specs::Steps::greater_end))]
    fn greater_end(&mut self)
        ensures { self.new ≡ greater_end self.old }
    {
        self.skip_same('>');
        self.skip_if(Class::Assign);
    }

    /// Moves on over what may follow the first character of a symbol.
    #[tactic(auto, unfolding(crate::specs::Steps::symbol_end))]
    fn symbol_end(&mut self, start: SymbolStart, c: char)
        ensures { self.new ≡ symbol_end start c self.old }
    {
        match start {
            SymbolStart::Alone | SymbolStart::Nothing => {}
            SymbolStart::Assigning => {
                self.skip_if(Class::Assign);
            }
            SymbolStart::Doubling => {
                if !self.skip_same(c) {
                    self.skip_if(Class::Assign);
                }
            }
            SymbolStart::Less => {
                self.skip_same('<');
                self.skip_if(Class::Assign);
            }
            SymbolStart::Greater => {
                if self.skip_same('>') {
                    self.greater_end();
                } else {
                    self.skip_if(Class::Assign);
                }
            }
        }
    }
}
