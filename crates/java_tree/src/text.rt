ghost use Rattle.std.specs.Prelude.{◌≡◌, ◌↔◌, length, string_bytes, IsTrue, IfOk};

use std::alloc::{AllocError, Global};
use std::marker::Model;

/// A `String` that contracts see as its bytes.
#[derive(Debug, Drop)]
pub struct Text {
    string: String,
}

impl Model for Text {
    ghost use Rattle.std.specs.Prelude.{List, ℕ, string_bytes};

    ghost Value = { List ℕ };

    ghost view = { λ t. string_bytes t.string };
}

impl Text {
    /// A text of these characters.
    pub fn from_str(alloc: Global, characters: &str) -> Result<Text, AllocError>
        ensures { IfOk result (λ t. t ≡ characters.now) }
    {
        let string = String::from_str(alloc, characters)?;
        Ok(Text { string })
    }

    /// A text of this string, which isn't copied.
    pub fn from_string(string: String) -> Text
        ensures { result ≡ string_bytes string }
    {
        Text { string }
    }

    /// The characters.
    pub fn as_str(&self) -> &str
        ensures { result.now ≡ self.now }
    {
        self.string.as_str()
    }

    /// The length in bytes.
    pub fn len(&self) -> usize
        ensures { result ≡ length self.now }
    {
        self.string.len()
    }

    /// Whether these are the characters.
    pub fn is(&self, characters: &str) -> bool
        ensures { IsTrue result ↔ (self.now ≡ characters.now) }
    {
        self.string.as_str() == characters
    }

    /// An equal text.
    pub fn copy(&self, alloc: Global) -> Result<Text, AllocError>
        ensures { IfOk result (λ t. t ≡ self.now) }
    {
        Text::from_str(alloc, self.as_str())
    }
}
