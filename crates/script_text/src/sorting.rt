//! Documents in order.

ghost use Rattle.std.specs.Prelude.{◌≡◌, IfOk, IsErrOf};
ghost use Rattle.std.specs.List.{IsDistinct};
ghost use Rattle.std.specs.List.Sorted.{IsPermutation};
ghost use Rattle.std.specs.Ordering.{eq_by_cmp};
ghost use Rattle.java_model.specs.Documents.{document_cmp, AreInOrder};
ghost use Rattle.script_text.specs.Inner.Sorted.{rises};
ghost use Rattle.script_text.specs.Views.{document_of, documents_of};

use crate::fault::ScriptFault;
use crate::script::ScriptDoc;
use std::cmp::Ordering;

/// The order of documents: by container, then by path.
fn by_name(a: &ScriptDoc, b: &ScriptDoc) -> Ordering
    ensures { result ≡ document_cmp (document_of a.now) (document_of b.now) }
{
    let containers = a.container.as_str().cmp(b.container.as_str());
    containers.then(a.path.as_str().cmp(b.path.as_str()))
}

/// Whether each document is below the next.
fn rises(docs: &[ScriptDoc]) -> bool
    ensures { result ≡ rises document_cmp (documents_of docs.now) }
{
    let mut rest = docs;
    while let [first, second, ..] = rest {
        if by_name(first, second) != Ordering::Less {
            return false;
        }
        rest = &rest[1..];
    }
    true
}

/// The documents in order, by a stable sort; `NotBuilt` if two have one name.
pub(crate) fn in_order(mut docs: Vec<ScriptDoc>) -> Result<Vec<ScriptDoc>, ScriptFault>
    ensures sorted { IfOk result (λ sorted. IsPermutation docs.items sorted.items × AreInOrder (documents_of sorted.items)) }
    ensures twice { IsErrOf result ScriptFault.NotBuilt → ¬ IsDistinct (eq_by_cmp document_cmp) (documents_of docs.items) }
{
    docs.sort_by(by_name)?;
    if rises(&docs) {
        Ok(docs)
    } else {
        Err(ScriptFault::NotBuilt)
    }
}
