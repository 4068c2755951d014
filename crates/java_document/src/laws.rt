ghost use Rattle.java_model.specs.DocumentTexts.{AtMostOneOutline};

use java_parse_unit::one_unit;

/// A text has at most one outline.
pub fn one_outline()
    ensures { AtMostOneOutline }
{
    one_unit();
}
