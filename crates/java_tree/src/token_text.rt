ghost use Rattle.std.specs.Prelude.{◌≡◌, IfOk};

use crate::text::Text;
use arrayvec::ArrayString;
use std::alloc::{AllocError, Global};
use std::marker::Model;

/// The characters of a token, which contracts see as their bytes; few of them take no allocation.
#[derive(Debug, Drop)]
pub struct TokenText {
    short: ArrayString<16>,
    long: String,
}

impl Model for TokenText {
    ghost use Rattle.std.specs.Prelude.{List, ℕ, [], ◌∷◌, string_bytes};

    ghost Value = { List ℕ };

    ghost view = { λ t. elim (string_bytes t.long) [
      | [] ↦ t.short.bytes
      | byte ∷ bytes ↦ byte ∷ bytes
    ] };
}

impl TokenText {
    /// These characters.
    pub fn from_str(alloc: Global, characters: &str) -> Result<TokenText, AllocError>
        ensures { IfOk result (λ t. t ≡ characters.now) }
    {
        match ArrayString::from(characters) {
            Ok(short) => Ok(TokenText {
                short,
                long: String::new(alloc),
            }),
            Err(_) => Ok(TokenText {
                short: ArrayString::new(),
                long: String::from_str(alloc, characters)?,
            }),
        }
    }

    /// The characters.
    pub fn as_str(&self) -> &str
        ensures { result.now ≡ self.now }
    {
        if self.long.is_empty() {
            self.short.as_str()
        } else {
            self.long.as_str()
        }
    }

    /// A text of the same characters.
    pub fn to_text(&self, alloc: Global) -> Result<Text, AllocError>
        ensures { IfOk result (λ t. t ≡ self.now) }
    {
        Text::from_str(alloc, self.as_str())
    }
}
