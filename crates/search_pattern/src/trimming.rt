ghost use Rattle.std.specs.Prelude.{◌≡◌};
ghost use Rattle.java_model.specs.SearchPattern.Texts.{trimmed};

/// A text without the spaces at its ends.
pub(crate) fn trimmed(text: &str) -> &str
    ensures { result.now ≡ trimmed text.now }
{
    text.trim_start_matches(' ').trim_end_matches(' ')
}
