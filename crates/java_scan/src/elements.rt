//! All input elements of a text (JLS 3.5).
ghost use Rattle.std.specs.Prelude.{◌≡◌, ℕ, ◌≤◌, map, take, IfOk, IsOkUnless, Some};
ghost use Rattle.java_model.specs.Lexical.Escapes.{raw};
ghost use Rattle.java_model.specs.Lexical.Tokens.{token_at};
ghost use Rattle.java_scan.specs.Place.{first, advance};
ghost use Rattle.java_scan.specs.Elements.{Adds, Scans};

use crate::cursor::Cursor;
use crate::fault::ScanFault;
use java_tree::{Level, Span, Token, TokenKind, TokenText};
use std::alloc::Global;

/// The bytes that a token takes with the white space and comments around it, as most texts have them.
const BYTES_A_TOKEN: usize = 4;

/// The token of this kind from an earlier place on up to here.
fn token_since<'a>(
    alloc: Global,
    kind: TokenKind,
    start: &Cursor<'a>,
    end: &Cursor<'a>,
) -> Result<Token, ScanFault>
    requires text { start.now.text ≡ end.now.text }
    requires before { start.now.at ≤ end.now.at }
    ensures ok { (n : ℕ)
        → end.now ≡ advance n start.now
        → IfOk result (λ token. token ≡ token_at kind start.now.at (map raw (take n start.now.left))) }
    ensures err { IsOkUnless result ScanFault.NoMemory }
{
    let name = TokenText::from_str(alloc, end.text_since(start))?;
    let span = Span {
        start: start.offset(),
        end: end.offset(),
    };
    Ok(Token { kind, name, span })
}

/// Moves on over the element here, which begins with the character, and keeps it if it is a token.
fn push_element(
    alloc: Global,
    level: Level,
    cursor: &mut Cursor,
    c: char,
    tokens: &mut Vec<Token>,
) -> Result<(), ScanFault>
    requires { first cursor.old.left ≡ Some c }
    ensures { Adds level cursor.old tokens.old.items result cursor.new tokens.new.items }
{
    let start = cursor.copy();
    let Some(kind) = cursor.element(level, c)? else {
        return Ok(());
    };
    let token = token_since(alloc, kind, &start, cursor)?;
    tokens.push(token)?;
    Ok(())
}

/// The tokens from here on.
pub fn tokens(alloc: Global, level: Level, cursor: &mut Cursor) -> Result<Vec<Token>, ScanFault>
    ensures { Scans level cursor.old result cursor.new }
{
    let mut tokens = Vec::with_capacity(alloc, cursor.len() / BYTES_A_TOKEN)?;
    while let Some(c) = cursor.peek_past_white() {
        push_element(alloc, level, cursor, c, &mut tokens)?;
    }
    Ok(tokens)
}
