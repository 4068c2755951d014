ghost use Rattle.std.specs.Prelude.{◌≡◌, ◌↔◌, [], ◌∷◌, ◌++◌, map, IsTrue, IfOk, OnOk, OnErr};
ghost use Rattle.java_types.specs.Documents.{document_of, path_of, AreInOrder, ComesAfter};

use crate::finding::by_path;
use java_tree::{DocName, DocPath, Items, Outline};
use std::alloc::{AllocError, Global};
use std::marker::Model;

/// A readable document: where it is, and what it declares and imports.
#[derive(Debug, Drop)]
pub struct KeptDocument {
    pub path: DocPath,
    pub outline: Outline,
}

/// The readable documents of an environment, in order of container, then path.
#[derive(Debug, Drop)]
pub struct EnvDocs {
    documents: Items<KeptDocument>,
}

impl Model for EnvDocs {
    ghost use Rattle.std.specs.Prelude.{List, map};
    ghost use Rattle.java_model.specs.Names.Environments.{EnvDocument};
    ghost use Rattle.java_types.specs.Documents.{document_of, AreInOrder};

    ghost Value = { List EnvDocument };

    ghost view = { λ d. map document_of d.documents };

    ghost invariant = { λ d. AreInOrder (map document_of d.documents) };
}

/// The container and path of a document.
fn path_of(alloc: Global, name: &DocName) -> Result<DocPath, AllocError>
    ensures { IfOk result (λ p. p ≡ path_of name.now) }
{
    let container = name.container.copy(alloc)?;
    let path = name.path.copy(alloc)?;
    Ok(DocPath { container, path })
}

impl EnvDocs {
    /// No documents.
    pub fn new(alloc: Global) -> EnvDocs
        ensures { result ≡ [] }
    {
        EnvDocs {
            documents: Items::new(alloc),
        }
    }

    /// Whether a document stands after all that are there, by its container, then its path.
    pub fn takes(&self, name: &DocName) -> bool
        ensures { IsTrue result ↔ ComesAfter self.now (path_of name.now) }
    {
        let documents = self.documents.as_slice();
        let count = documents.len();
        count == 0 || by_path(&documents[count - 1].path, &name.container, &name.path).is_lt()
    }

    /// Adds a document that stands after all that are there.
    pub fn add(
        &mut self,
        alloc: Global,
        name: &DocName,
        outline: &Outline,
    ) -> Result<(), AllocError>
        requires { ComesAfter self.old (path_of name.now) }
        ensures added { OnOk result (self.new ≡ self.old ++ record { path = path_of name.now; outline = outline.now } ∷ []) }
        ensures unchanged { OnErr result (self.new ≡ self.old) }
    {
        let path = path_of(alloc, name)?;
        let outline = outline.copy(alloc)?;
        self.documents.push(KeptDocument { path, outline })?;
        Ok(())
    }

    /// The documents.
    pub(crate) fn into_documents(self) -> Items<KeptDocument>
        ensures documents { map document_of result ≡ self }
        ensures order { AreInOrder self }
    {
        let EnvDocs { documents } = self;
        documents
    }
}
