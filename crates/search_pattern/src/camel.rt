//! Names compared piece by piece, each of which begins with a capital.

ghost use Rattle.std.specs.Prelude.{◌≡◌, cond};
ghost use Rattle.std.specs.Option.{option_copied};
ghost use Rattle.java_model.specs.SearchPattern.NameMatch.{is_capital, is_camel};
ghost use Rattle.search_pattern.specs.Camel.{after_byte, from_capital};

fn is_capital(byte: u8) -> bool
    ensures { result ≡ is_capital byte }
{
    byte >= b'A' && byte <= b'Z'
}

/// A name from its first capital on.
fn from_capital(name: &[u8]) -> &[u8]
    ensures { result.now ≡ from_capital name.now }
{
    for (i, byte) in name.iter().enumerate() {
        if is_capital(*byte) {
            return &name[i..];
        }
    }
    &[]
}

/// Where in the rest of a name a byte of a pattern has to stand: a capital where the next one does, and any other byte
/// next.
fn sought(byte: u8, left: &[u8]) -> &[u8]
    ensures { result.now ≡ cond (is_capital byte) (from_capital left.now) left.now }
{
    if is_capital(byte) {
        from_capital(left)
    } else {
        left
    }
}

/// What follows a byte at the start of a name.
fn after_byte(byte: u8, name: &[u8]) -> Option<&[u8]>
    ensures { option_copied result ≡ after_byte byte name.now }
{
    let (first, rest) = name.split_first()?;
    if byte == *first { Some(rest) } else { None }
}

/// Whether each piece of a pattern begins the piece of a name at its place (JDT `R_CAMELCASE_MATCH`).
pub(crate) fn is_camel(pattern: &[u8], name: &[u8]) -> bool
    ensures { result ≡ is_camel pattern.now name.now }
{
    let Some((first, more)) = pattern.split_first() else {
        return true;
    };
    let Some(mut left) = after_byte(*first, name) else {
        return false;
    };
    for byte in more {
        let Some(after) = after_byte(*byte, sought(*byte, left)) else {
            return false;
        };
        left = after;
    }
    true
}
