//! Parameters: what stands between the parentheses.

ghost use Rattle.std.specs.Prelude.{◌≡◌, IfOk};
ghost use Rattle.std.specs.List.{list_any};
ghost use Rattle.java_model.specs.SearchPattern.Texts.{is_empty};
ghost use Rattle.search_pattern.specs.Params.{params_between};

use crate::trimming::trimmed;
use java_tree::{Items, Text};
use std::alloc::{AllocError, Global};

/// Whether one of several parameters is empty.
pub(crate) fn has_empty_param(inside: &str) -> bool
    ensures { result ≡ list_any is_empty (params_between inside.now) }
{
    if trimmed(inside).is_empty() {
        return false;
    }
    inside.split(',').any(|param| trimmed(param).is_empty())
}

/// The parameters.
pub(crate) fn params_in(alloc: Global, inside: &str) -> Result<Items<Text>, AllocError>
    ensures { IfOk result (λ params. params ≡ params_between inside.now) }
{
    let mut params = Items::new(alloc);
    if trimmed(inside).is_empty() {
        return Ok(params);
    }
    for param in inside.split(',') {
        params.push(Text::from_str(alloc, trimmed(param))?)?;
    }
    Ok(params)
}
