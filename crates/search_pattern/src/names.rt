ghost use Rattle.std.specs.Prelude.{◌≡◌};
ghost use Rattle.java_model.specs.SearchPattern.NameMatch.{name_matches};

use crate::camel::is_camel;
use crate::same::{is_exact, is_prefix};
use crate::wild::is_wild;
use java_tree::Rule;

/// Whether a name matches the name of a pattern (JDT `SearchPattern`), by a match rule and by whether case counts,
/// which is that of ASCII letters alone and always counts for camel case. It takes no memory. It takes steps in
/// proportion to the length of both, and with wild cards to their product at most.
pub fn name_matches(rule: Rule, case: bool, pattern: &str, name: &str) -> bool
    ensures { result ≡ name_matches rule case pattern.now name.now }
{
    match rule {
        Rule::Exact => is_exact(case, pattern.as_bytes(), name.as_bytes()),
        Rule::Prefix => is_prefix(case, pattern.as_bytes(), name.as_bytes()),
        Rule::Wild => is_wild(case, pattern, name),
        Rule::Camel => is_camel(pattern.as_bytes(), name.as_bytes()),
    }
}
