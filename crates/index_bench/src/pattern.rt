ghost use Rattle.std.specs.Prelude.{◌≡◌, ◌==◌, not, length, take_while};
ghost use Rattle.java_tree.specs.Keys.{category_byte};
ghost use Rattle.index_keys.specs.Fields.{first_field};

use index_keys::Admit;
use java_tree::Category;

/// What separates the fields of a key.
const SEPARATOR: u8 = b'/';

/// The declared types whose names begin so.
#[derive(Debug, Drop)]
pub struct Prefix<'a> {
    pub name: &'a str,
}

/// The declared types of this name.
#[derive(Debug, Drop)]
pub struct Exact<'a> {
    pub name: &'a str,
}

/// The length of the first field of a key.
fn field_length(text: &[u8]) -> usize
    ensures { result ≡ length (take_while (λ b. not (b == 47)) text.now) }
{
    text.iter().take_while(|b| **b != SEPARATOR).count()
}

/// The first field of a key.
fn first_field(text: &[u8]) -> &[u8]
    ensures { result.now ≡ first_field text.now }
{
    &text[..field_length(text)]
}

fn is_type(category: Category) -> bool
    ensures { result ≡ (category_byte category == 2) }
{
    matches!(category, Category::TypeDecl)
}

impl<'a> Admit for Prefix<'a> {
    ghost use Rattle.std.specs.Prelude.{None, ◌&&◌, nat_eq};
    ghost use Rattle.std.specs.List.{starts_with};

    ghost admitted = { λ p category text. category_byte category == 2 && starts_with nat_eq text p.name.now };

    ghost name = { λ _. None };

    fn admits(&self, category: Category, text: &str) -> bool {
        is_type(category) && text.as_bytes().starts_with(self.name.as_bytes())
    }

    fn exact(&self) -> Option<&str> {
        None
    }
}

impl<'a> Admit for Exact<'a> {
    ghost use Rattle.std.specs.Prelude.{Some, ◌&&◌};
    ghost use Rattle.std.specs.Str.{bytes_eq};

    ghost admitted = { λ p category text. category_byte category == 2 && bytes_eq (first_field text) p.name.now };

    ghost name = { λ p. Some p.name.now };

    fn admits(&self, category: Category, text: &str) -> bool {
        is_type(category) && first_field(text.as_bytes()) == self.name.as_bytes()
    }

    fn exact(&self) -> Option<&str> {
        Some(self.name)
    }
}
