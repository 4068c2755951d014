//! Copies of what a search deals with: names of documents, scopes, occurrences and matches.
ghost use Rattle.std.specs.Prelude.{◌≡◌, IfOk};

use crate::copy_lists::copy_texts;
use crate::doc_name::{DocName, Scope};
use crate::occurrence::{Binding, Match, Occurrence};
use std::alloc::{AllocError, Global};

impl DocName {
    /// An equal name. Its only error is to be out of memory.
    pub fn copy(&self, alloc: Global) -> Result<DocName, AllocError>
        ensures container { IfOk result (λ n. n.container ≡ self.now.container) }
        ensures path { IfOk result (λ n. n.path ≡ self.now.path) }
        ensures version { IfOk result (λ n. n.version ≡ self.now.version) }
        ensures stamp { IfOk result (λ n. n.stamp ≡ self.now.stamp) }
    {
        let container = self.container.copy(alloc)?;
        let path = self.path.copy(alloc)?;
        Ok(DocName {
            container,
            path,
            version: self.version,
            stamp: self.stamp,
        })
    }
}

impl Scope {
    /// An equal scope. Its only error is to be out of memory.
    pub fn copy(&self, alloc: Global) -> Result<Scope, AllocError>
        ensures { IfOk result (λ s. s ≡ self.now) }
    {
        match self {
            Scope::All => Ok(Scope::All),
            Scope::Containers(names) => Ok(Scope::Containers(copy_texts(alloc, names.as_slice())?)),
        }
    }
}

impl Binding {
    /// An equal binding. Its only error is to be out of memory.
    pub fn copy(&self, alloc: Global) -> Result<Binding, AllocError>
        ensures { IfOk result (λ b. b ≡ self.now) }
    {
        match self {
            Binding::Package(name) => Ok(Binding::Package(name.copy(alloc)?)),
            Binding::Class(id) => Ok(Binding::Class(*id)),
            Binding::Field(id) => Ok(Binding::Field(*id)),
            Binding::Method(id) => Ok(Binding::Method(*id)),
            Binding::Nothing => Ok(Binding::Nothing),
        }
    }
}

impl Occurrence {
    /// An equal occurrence. Its only error is to be out of memory.
    pub fn copy(&self, alloc: Global) -> Result<Occurrence, AllocError>
        ensures { IfOk result (λ o. o ≡ self.now) }
    {
        let name = self.name.copy(alloc)?;
        let binding = self.binding.copy(alloc)?;
        Ok(Occurrence {
            kind: self.kind,
            span: self.span,
            name,
            count: self.count,
            binding,
            accuracy: self.accuracy,
            access: self.access,
        })
    }
}

impl Match {
    /// An equal match. Its only error is to be out of memory.
    pub fn copy(&self, alloc: Global) -> Result<Match, AllocError>
        ensures { IfOk result (λ m. m ≡ self.now) }
    {
        let container = self.container.copy(alloc)?;
        let path = self.path.copy(alloc)?;
        Ok(Match {
            container,
            path,
            span: self.span,
            kind: self.kind,
            accuracy: self.accuracy,
            access: self.access,
        })
    }
}
