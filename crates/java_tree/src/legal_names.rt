ghost use Rattle.std.specs.Prelude.{◌≡◌, ◌==◌, ◌||◌, not};
ghost use Rattle.std.specs.List.{list_all};
ghost use Rattle.java_tree.specs.Names.{is_name_byte, is_name, is_container, is_source_path};

use crate::limits::MAX_NAME;

/// Whether a byte may stand in a name: it is part of a character above U+0020 other than U+007F.
fn is_name_byte(b: u8) -> bool
    ensures { result ≡ is_name_byte b }
{
    b > b' ' && b != 127
}

fn are_name_bytes(bytes: &[u8]) -> bool
    ensures { result ≡ list_all is_name_byte bytes.now }
{
    bytes.iter().all(|b| is_name_byte(*b))
}

/// Whether a byte parts the containers of a scope, or stands for all of them.
fn is_scope_byte(b: u8) -> bool
    ensures { result ≡ (b == 44 || b == 42) }
{
    b == b',' || b == b'*'
}

fn have_no_scope_byte(bytes: &[u8]) -> bool
    ensures { result ≡ list_all (λ b. not (b == 44 || b == 42)) bytes.now }
{
    bytes.iter().all(|b| !is_scope_byte(*b))
}

/// Whether a text is a name: 1 to 200 bytes of characters above U+0020 other than U+007F.
pub fn is_name(name: &str) -> bool
    ensures { result ≡ is_name name.now }
{
    let bytes = name.as_bytes();
    !bytes.is_empty() && bytes.len() <= MAX_NAME && are_name_bytes(bytes)
}

/// Whether a text is the name of a container: it has no `,` and no `*` either.
pub fn is_container(name: &str) -> bool
    ensures { result ≡ is_container name.now }
{
    is_name(name) && have_no_scope_byte(name.as_bytes())
}

/// Whether a text is the path of a Java source.
pub fn is_source_path(path: &str) -> bool
    ensures { result ≡ is_source_path path.now }
{
    is_name(path) && path.as_bytes().ends_with(b".java")
}
