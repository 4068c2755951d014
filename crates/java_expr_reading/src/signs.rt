//! What a tree says of a token, from its kind and its spelling.

ghost use Rattle.std.specs.Prelude.{◌≡◌, ◌↔◌, ◌∷◌, [], map, slice_index, Some, IfOk, IsNone, IsTrue};
ghost use Rattle.java_tree.specs.declared.token.Span.{Span};
ghost use Rattle.java_tree.specs.declared.words.TheConstants.{KEYWORDS};
ghost use Rattle.java_model.specs.Grammar.Marks.{keywords, symbols, spelled, mark_of};
ghost use Rattle.java_model.specs.Grammar.Signs.{sign, placed, keyword_sign, symbol_sign};
ghost use Rattle.java_expr_reading.specs.Shapes.{shape_of};
ghost use Rattle.java_expr_reading.specs.Initials.{InitialsBetween};
ghost use Rattle.java_expr_reading.specs.Input.{ident_in, literal_in};

use crate::shape::Shape;
use java_tree::{
    ADDED_KEYWORD_MARKS, ADDED_KEYWORDS, Ident, KEYWORD_MARKS, KEYWORDS, Literal, Mark,
    OPERATOR_MARKS, OPERATORS, Token, TokenKind,
};
use std::alloc::{AllocError, Global};

/// The first byte of a word, or 0.
#[inline(always)]
fn first_byte(word: &str) -> u8
    ensures { result ≡ slice_index word.now 0 }
{
    match word.as_bytes().first() {
        Some(byte) => *byte,
        None => 0,
    }
}

/// Whether two words are the same, of which most differ in length or in the first byte.
#[inline(always)]
fn is_same_word(word: &str, other: &str) -> bool
    ensures { IsTrue result ↔ (word.now ≡ other.now) }
{
    word.len() == other.len() && first_byte(word) == first_byte(other) && word == other
}

/// The mark that is spelled so, of these words with their marks.
fn mark_in(words: &[&str], marks: &[Mark], name: &str) -> Option<Mark>
    ensures { result ≡ mark_of (spelled marks.now (map (λ word. word.now) words.now)) name.now }
{
    for at in 0..words.len().min(marks.len()) {
        if is_same_word(words[at], name) {
            return Some(marks[at]);
        }
    }
    None
}

/// Where in `KEYWORDS` the words with this first letter begin and end.
fn keywords_from(letter: u8) -> (usize, usize)
    ensures { InitialsBetween letter (map (λ word. word.now) KEYWORDS) result.0 result.1 }
{
    match letter {
        b'a' => (0, 1),
        b'b' => (1, 4),
        b'c' => (4, 10),
        b'd' => (10, 13),
        b'e' => (13, 15),
        b'f' => (15, 19),
        b'g' => (19, 20),
        b'i' => (20, 26),
        b'l' => (26, 27),
        b'n' => (27, 29),
        b'p' => (29, 33),
        b'r' => (33, 34),
        b's' => (34, 40),
        b't' => (40, 45),
        b'v' => (45, 47),
        b'w' => (47, 48),
        _ => (0, 0),
    }
}

/// The mark of a keyword. It is compared with those of its first letter alone.
fn keyword_mark(name: &str) -> Option<Mark>
    ensures { result ≡ mark_of keywords name.now }
{
    let (start, end) = keywords_from(first_byte(name));
    match mark_in(&KEYWORDS[start..end], &KEYWORD_MARKS[start..end], name) {
        Some(mark) => Some(mark),
        None => mark_in(&ADDED_KEYWORDS, &ADDED_KEYWORD_MARKS, name),
    }
}

/// The mark of a symbol of one character.
#[tactic(auto, unfolding(java_model::specs::Grammar::Marks::symbols))]
fn single_mark(byte: u8) -> Option<Mark>
    ensures { result ≡ mark_of symbols (byte ∷ []) }
{
    match byte {
        b'(' => Some(Mark::LeftParen),
        b')' => Some(Mark::RightParen),
        b'{' => Some(Mark::LeftBrace),
        b'}' => Some(Mark::RightBrace),
        b'[' => Some(Mark::LeftBracket),
        b']' => Some(Mark::RightBracket),
        b';' => Some(Mark::Semicolon),
        b',' => Some(Mark::Comma),
        b'.' => Some(Mark::Dot),
        b'=' => Some(Mark::Assign),
        b'>' => Some(Mark::Greater),
        b'<' => Some(Mark::Less),
        b'!' => Some(Mark::Bang),
        b'~' => Some(Mark::Tilde),
        b'?' => Some(Mark::Question),
        b':' => Some(Mark::Colon),
        b'+' => Some(Mark::Plus),
        b'-' => Some(Mark::Minus),
        b'*' => Some(Mark::Star),
        b'/' => Some(Mark::Slash),
        b'&' => Some(Mark::And),
        b'|' => Some(Mark::Or),
        b'^' => Some(Mark::Caret),
        b'%' => Some(Mark::Percent),
        _ => None,
    }
}

/// The mark of a symbol. A longer one than a character is an operator.
fn symbol_mark(name: &str) -> Option<Mark>
    ensures { result ≡ mark_of symbols name.now }
{
    if name.len() == 1 {
        single_mark(first_byte(name))
    } else {
        mark_in(&OPERATORS, &OPERATOR_MARKS, name)
    }
}

fn placed_shape(mark: Option<Mark>) -> Shape
    ensures { (span : Span) → result ≡ shape_of (placed span mark) }
{
    match mark {
        None => Shape::Stray,
        Some(Mark::LeftBrace) => Shape::LeftBrace,
        Some(Mark::This) => Shape::This,
        Some(Mark::Super) => Shape::Super,
        Some(mark) => Shape::Mark(mark),
    }
}

#[tactic(auto, using(crate::proofs::SignLaws::same_word), unfolding(java_model::specs::Grammar::Signs::keyword_sign))]
fn literal_word(name: &str) -> Option<Literal>
    ensures found { (span : Span) → result ≡ literal_in (Some (keyword_sign name.now span)) }
    ensures none { IsNone result → (span : Span) → keyword_sign name.now span ≡ placed span (mark_of keywords name.now) }
{
    if is_same_word("true", name) {
        Some(Literal::True)
    } else if is_same_word("false", name) {
        Some(Literal::False)
    } else if is_same_word("null", name) {
        Some(Literal::Null)
    } else {
        None
    }
}

fn keyword_shape(name: &str) -> Shape
    ensures { (span : Span) → result ≡ shape_of (keyword_sign name.now span) }
{
    match literal_word(name) {
        Some(_) => Shape::Literal,
        None => placed_shape(keyword_mark(name)),
    }
}

/// The shape of a token.
pub(crate) fn shape_of(token: &Token) -> Shape
    ensures { result ≡ shape_of (sign token.now) }
{
    match token.kind {
        TokenKind::Identifier => Shape::Word,
        TokenKind::Keyword => keyword_shape(token.name.as_str()),
        TokenKind::Symbol => placed_shape(symbol_mark(token.name.as_str())),
        _ => Shape::Literal,
    }
}

/// The identifier that a token is, if it is one.
pub(crate) fn ident_of(alloc: Global, token: &Token) -> Result<Option<Ident>, AllocError>
    ensures { IfOk result (λ o. o ≡ ident_in (Some (sign token.now))) }
{
    match token.kind {
        TokenKind::Identifier => {
            let name = token.name.to_text(alloc)?;
            Ok(Some(Ident {
                name,
                span: token.span,
            }))
        }
        _ => Ok(None),
    }
}

/// The literal that a token is, if it is one.
pub(crate) fn literal_of(alloc: Global, token: &Token) -> Result<Option<Literal>, AllocError>
    ensures { IfOk result (λ o. o ≡ literal_in (Some (sign token.now))) }
{
    let literal = match token.kind {
        TokenKind::IntLit => Literal::Int(token.name.to_text(alloc)?),
        TokenKind::LongLit => Literal::Long(token.name.to_text(alloc)?),
        TokenKind::FloatLit => Literal::Float(token.name.to_text(alloc)?),
        TokenKind::DoubleLit => Literal::Double(token.name.to_text(alloc)?),
        TokenKind::CharLit => Literal::Char(token.name.to_text(alloc)?),
        TokenKind::StringLit => Literal::String(token.name.to_text(alloc)?),
        TokenKind::Keyword => return Ok(literal_word(token.name.as_str())),
        _ => return Ok(None),
    };
    Ok(Some(literal))
}
