//! The opening documents, read.

ghost use Rattle.std.specs.Prelude.{◌≡◌, ◌+◌, length, map, sum, IfOk, OnOk};
ghost use Rattle.std.specs.List.{AllByRecursion};
ghost use Rattle.java_tree.specs.declared.outline.Level.TheVariants.{Java14};
ghost use Rattle.java_model.specs.ScriptText.{IsScriptDoc};
ghost use Rattle.java_model.specs.Texts.{IsOutlineOf};
ghost use Rattle.script_text.specs.Views.{document_of, documents_of};
ghost use Rattle.search_main.specs.Inner.Views.{document_read, path_read};

use java_document::Document;
use java_tree::DocPath;
use jx_io::Steps;
use script_text::ScriptDoc;
use std::alloc::{AllocError, Global};

/// An opening document that was read.
#[derive(Debug, Drop)]
pub struct Opened {
    pub stamp: u64,
    pub document: Document,
}

/// Where a document is.
pub(crate) fn path_of(alloc: Global, one: &Opened) -> Result<DocPath, AllocError>
    ensures { IfOk result (λ path. path ≡ path_read one.now) }
{
    let container = one.document.container.copy(alloc)?;
    let path = one.document.path.copy(alloc)?;
    Ok(DocPath { container, path })
}

/// Reads a document. A legal path and a text within its limit are never refused.
fn read_document<L>(
    alloc: Global,
    doc: ScriptDoc,
    steps: &mut Steps<L>,
) -> Result<Opened, AllocError>
    requires { IsScriptDoc (document_of doc) }
    ensures same { IfOk result (λ opened. document_read opened ≡ document_of doc) }
    ensures outline { IfOk result (λ opened. IsOutlineOf Java14 doc.text opened.document.outline) }
    ensures level { IfOk result (λ opened. opened.document.level ≡ Java14) }
    ensures steps { steps.new ≡ steps.old + length doc.text }
{
    let ScriptDoc {
        container,
        path,
        stamp,
        text,
    } = doc;
    match Document::read(alloc, container, path, text, steps) {
        Ok(document) => Ok(Opened { stamp, document }),
        Err(_) => Err(AllocError),
    }
}

/// The documents, each with its outline. Each text is read once.
pub(crate) fn read_documents<L>(
    alloc: Global,
    docs: Vec<ScriptDoc>,
    steps: &mut Steps<L>,
) -> Result<Vec<Opened>, AllocError>
    requires { AllByRecursion IsScriptDoc (documents_of docs.items) }
    ensures same { IfOk result (λ opened. map document_read opened.items ≡ documents_of docs.items) }
    ensures outlined { IfOk result (λ opened. AllByRecursion (λ o. IsOutlineOf Java14 o.document.text o.document.outline) opened.items) }
    ensures levels { IfOk result (λ opened. AllByRecursion (λ o. o.document.level ≡ Java14) opened.items) }
    ensures steps { OnOk result (steps.new ≡ steps.old + sum (map (λ doc. length doc.text) docs.items)) }
{
    let mut opened = Vec::new(alloc);
    for doc in docs {
        opened.push(read_document(alloc, doc, steps)?)?;
    }
    Ok(opened)
}
