//! Qualifications of types.

ghost use Rattle.std.specs.Prelude.{◌≡◌, ◌++◌, cond, drop, reverse, Some, None, IfOk};
ghost use Rattle.java_model.specs.Names.Lists.{with_dots};

use crate::named::with_dots;
use java_tree::Text;
use std::alloc::{AllocError, Global};

/// A package, which is given with its dots too, and names in it, with dots.
fn dotted_in(
    alloc: Global,
    package_names: &[Text],
    qualifier: &Text,
    names: &[Text],
) -> Result<Text, AllocError>
    requires { qualifier.now ≡ with_dots package_names.now }
    ensures { IfOk result (λ t. t ≡ with_dots (package_names.now ++ names.now)) }
{
    if names.is_empty() {
        let whole = qualifier.copy(alloc)?;
        return Ok(whole);
    }
    let inner = with_dots(alloc, names)?;
    if package_names.is_empty() {
        return Ok(inner);
    }
    let mut dotted = String::from_str(alloc, qualifier.as_str())?;
    dotted.push('.')?;
    dotted.push_str(inner.as_str())?;
    Ok(Text::from_string(dotted))
}

fn all_but_last(names: &[Text]) -> &[Text]
    ensures { result.now ≡ reverse (drop 1 (reverse names.now)) }
{
    &names[..names.len().saturating_sub(1)]
}

/// The package and the names of the types around a type, whose own is the last of these names, with dots, none for a
/// type without a qualified name.
pub(crate) fn qualification_of(
    alloc: Global,
    unqualified: bool,
    package_names: &[Text],
    qualifier: &Text,
    names: &[Text],
) -> Result<Option<Text>, AllocError>
    requires { qualifier.now ≡ with_dots package_names.now }
    ensures { IfOk result (λ q. q ≡ cond unqualified None (Some (with_dots (package_names.now ++ reverse (drop 1 (reverse names.now)))))) }
{
    if unqualified {
        return Ok(None);
    }
    let dotted = dotted_in(alloc, package_names, qualifier, all_but_last(names))?;
    Ok(Some(dotted))
}
