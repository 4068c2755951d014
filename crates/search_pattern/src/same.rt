//! Names compared from their start.

ghost use Rattle.std.specs.Prelude.{◌≡◌};
ghost use Rattle.java_model.specs.SearchPattern.NameMatch.{is_same, is_exact, is_prefix};

/// Whether two bytes are the same; where case doesn't count, up to the case of ASCII letters.
fn is_same_byte(case: bool, a: u8, b: u8) -> bool
    ensures { result ≡ is_same case a b }
{
    if case {
        a == b
    } else {
        a.eq_ignore_ascii_case(&b)
    }
}

/// The same of two characters.
pub(crate) fn is_same_char(case: bool, wanted: char, found: char) -> bool
    ensures { result ≡ is_same case wanted found }
{
    if case {
        wanted == found
    } else {
        wanted.eq_ignore_ascii_case(&found)
    }
}

/// Whether a name begins with a pattern (JDT `R_PREFIX_MATCH`).
pub(crate) fn is_prefix(case: bool, pattern: &[u8], name: &[u8]) -> bool
    ensures { result ≡ is_prefix case pattern.now name.now }
{
    for (i, byte) in pattern.iter().enumerate() {
        if i >= name.len() || !is_same_byte(case, *byte, name[i]) {
            return false;
        }
    }
    true
}

/// Whether a name is a pattern (JDT `R_EXACT_MATCH`).
pub(crate) fn is_exact(case: bool, pattern: &[u8], name: &[u8]) -> bool
    ensures { result ≡ is_exact case pattern.now name.now }
{
    pattern.len() == name.len() && is_prefix(case, pattern, name)
}
