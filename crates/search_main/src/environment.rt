//! The environment of the opening documents (JLS 7).

ghost use Rattle.std.specs.Prelude.{◌≡◌, ◌++◌, IfOk, OnOk};
ghost use Rattle.std.specs.List.{AllByRecursion};
ghost use Rattle.java_model.specs.Documents.{AreInOrder};
ghost use Rattle.java_model.specs.ScriptText.{IsScriptDoc};
ghost use Rattle.java_types.specs.Documents.{path_of, ComesAfter};
ghost use Rattle.search_main.specs.Inner.Views.{document_read, documents_read, entries_of, environment_of, path_read};

use crate::opening::Opened;
use java_env::Env;
use java_tree::DocName;
use java_types::EnvDocs;
use std::alloc::{AllocError, Global};

/// The name of an opening document.
fn name_of(alloc: Global, one: &Opened) -> Result<DocName, AllocError>
    requires { IsScriptDoc (document_read one.now) }
    ensures { IfOk result (λ name. path_of name ≡ path_read one.now) }
{
    let container = one.document.container.copy(alloc)?;
    let path = one.document.path.copy(alloc)?;
    Ok(DocName {
        container,
        path,
        version: 0,
        stamp: one.stamp,
    })
}

/// Adds a document that stands after all that are there. An unreadable one is left out.
fn add(alloc: Global, docs: &mut EnvDocs, one: &Opened) -> Result<(), AllocError>
    requires legal { IsScriptDoc (document_read one.now) }
    requires after { ComesAfter docs.old (path_read one.now) }
    ensures { OnOk result (docs.new ≡ docs.old ++ entries_of one.now) }
{
    match &one.document.outline {
        Some(outline) => {
            let name = name_of(alloc, one)?;
            docs.add(alloc, &name, outline)
        }
        None => Ok(()),
    }
}

/// The readable documents, in order.
fn readable(alloc: Global, opened: &[Opened]) -> Result<EnvDocs, AllocError>
    requires legal { AllByRecursion IsScriptDoc (documents_read opened.now) }
    requires order { AreInOrder (documents_read opened.now) }
    ensures { IfOk result (λ docs. docs ≡ environment_of opened.now) }
{
    let mut docs = EnvDocs::new(alloc);
    for one in opened {
        add(alloc, &mut docs, one)?;
    }
    Ok(docs)
}

/// The environment of the readable documents.
pub(crate) fn environment(alloc: Global, opened: &[Opened]) -> Result<Env, AllocError>
    requires legal { AllByRecursion IsScriptDoc (documents_read opened.now) }
    requires order { AreInOrder (documents_read opened.now) }
    ensures { IfOk result (λ env. env ≡ environment_of opened.now) }
{
    Env::of(alloc, readable(alloc, opened)?)
}
