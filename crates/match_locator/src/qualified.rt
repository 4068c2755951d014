//! Types by their names and qualifications.

ghost use Rattle.std.specs.Prelude.{◌≡◌, ◌∷◌};
ghost use Rattle.std.specs.List.{list_any};
ghost use Rattle.std.specs.Option.{option_copied};
ghost use Rattle.java_model.specs.SearchPattern.NameMatch.{is_exact};
ghost use Rattle.java_model.specs.Matches.TypePatterns.{after_dots, fits_class, fits_qualification, qualifies};

use java_tree::{Rule, TypeId};
use java_types::DeclaredTypes;
use search_pattern::name_matches;

/// Whether a qualification is the given one, or what stands after a dot of it is.
fn ends_in(case: bool, given: &str, whole: &str) -> bool
    ensures { result ≡ list_any (is_exact case given.now) (whole.now ∷ after_dots whole.now) }
{
    let mut rest = whole;
    while !name_matches(Rule::Exact, case, given, rest) {
        match rest.split_once('.') {
            Some((_before, after)) => rest = after,
            None => return false,
        }
    }
    true
}

/// Whether a qualification is that of a type. With wild cards it is compared as a whole.
fn qualifies(rule: Rule, case: bool, given: &str, whole: &str) -> bool
    ensures { result ≡ qualifies rule case given.now whole.now }
{
    match rule {
        Rule::Wild => name_matches(Rule::Wild, case, given, whole),
        Rule::Exact | Rule::Prefix | Rule::Camel => ends_in(case, given, whole),
    }
}

/// The same where none may be given, and where a type may have no qualified name.
fn fits_qualification(rule: Rule, case: bool, given: Option<&str>, whole: Option<&str>) -> bool
    ensures { result ≡ fits_qualification rule case (option_copied given.entry) (option_copied whole.entry) }
{
    let Some(given) = given else {
        return true;
    };
    match whole {
        Some(whole) => qualifies(rule, case, given, whole),
        None => false,
    }
}

/// Whether a type has a name and a qualification. A type that the environment doesn't have fits nothing.
pub(crate) fn fits_class(
    env: &DeclaredTypes,
    rule: Rule,
    case: bool,
    qualification: Option<&str>,
    name: &str,
    id: TypeId,
) -> bool
    ensures { result ≡ fits_class env.now rule case (option_copied qualification.entry) name.now id }
{
    env.has(id)
        && name_matches(rule, case, name, env.simple_name(id))
        && fits_qualification(rule, case, qualification, env.qualification(id))
}
