//! Places in the text of units, as places of the text that holds their escapes.
ghost use Rattle.std.specs.Prelude.{◌≡◌, map, IfOk, IsOkUnless};
ghost use Rattle.java_scan.specs.Moving.{placed_by, moved_token, moved_answer};

use crate::fault::ScanFault;
use java_tree::{Span, Token};
use std::alloc::Global;

/// The place that these give for a byte.
fn placed_by(places: &[u32], at: u32) -> u32
    ensures { result ≡ placed_by places.now at }
{
    match places.get(at as usize) {
        Some(place) => *place,
        None => 0,
    }
}

/// A token with its places moved.
fn moved_token(places: &[u32], token: Token) -> Token
    ensures { result ≡ moved_token (placed_by places.now) token }
{
    let span = Span {
        start: placed_by(places, token.span.start),
        end: placed_by(places, token.span.end),
    };
    Token {
        kind: token.kind,
        name: token.name,
        span,
    }
}

/// Tokens with their places moved.
pub fn moved_tokens(
    alloc: Global,
    places: &[u32],
    tokens: Vec<Token>,
) -> Result<Vec<Token>, ScanFault>
    ensures ok { IfOk result (λ moved. moved.items ≡ map (moved_token (placed_by places.now)) tokens.items) }
    ensures err { IsOkUnless result ScanFault.NoMemory }
{
    let mut moved = Vec::with_capacity(alloc, tokens.len())?;
    for token in tokens {
        moved.push(moved_token(places, token))?;
    }
    Ok(moved)
}

/// A fault with its place moved.
pub fn moved_fault(places: &[u32], fault: ScanFault) -> ScanFault
    ensures { result ≡ moved_answer (placed_by places.now) fault }
{
    match fault {
        ScanFault::BadEscape(at) => ScanFault::BadEscape(placed_by(places, at)),
        ScanFault::BadChar(at) => ScanFault::BadChar(placed_by(places, at)),
        ScanFault::Unclosed(at) => ScanFault::Unclosed(placed_by(places, at)),
        ScanFault::NoMemory => ScanFault::NoMemory,
    }
}
