//! What the kinds of elements have.

ghost use Rattle.std.specs.Prelude.{◌≡◌};
ghost use Rattle.java_model.specs.SearchPattern.Parts.{has_limit, has_params};

use java_tree::{Limit, What};

/// Whether a search of this kind of element may have this limit.
pub(crate) fn has_limit(what: What, limit: Limit) -> bool
    ensures { result ≡ has_limit what limit }
{
    match limit {
        Limit::Implementors => matches!(what, What::Class),
        Limit::Reads | Limit::Writes => matches!(what, What::Field),
        Limit::Declarations | Limit::References | Limit::All => true,
    }
}

/// Whether this kind of element has parameters.
pub(crate) fn has_params(what: What) -> bool
    ensures { result ≡ has_params what }
{
    matches!(what, What::Method | What::Constructor)
}
