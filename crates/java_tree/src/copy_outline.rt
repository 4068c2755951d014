//! Copies of outlines and their parts.
ghost use Rattle.std.specs.Prelude.{◌≡◌, IfOk};

use crate::copy_lists::{copy_names, copy_numbers, copy_texts};
use crate::outline::{ImportName, Outline, OutlineField, OutlineMethod, OutlineType, SpelledType};
use sqlite_items::Items;
use std::alloc::{AllocError, Global};

impl ImportName {
    /// An equal import. Its only error is to be out of memory.
    pub fn copy(&self, alloc: Global) -> Result<ImportName, AllocError>
        ensures { IfOk result (λ i. i ≡ self.now) }
    {
        let name = copy_texts(alloc, self.name.as_slice())?;
        Ok(ImportName {
            name,
            star: self.star,
        })
    }
}

impl SpelledType {
    /// An equal spelled type. Its only error is to be out of memory.
    pub fn copy(&self, alloc: Global) -> Result<SpelledType, AllocError>
        ensures { IfOk result (λ t. t ≡ self.now) }
    {
        let name = copy_texts(alloc, self.name.as_slice())?;
        Ok(SpelledType {
            name,
            dims: self.dims,
        })
    }
}

impl OutlineField {
    /// An equal field. Its only error is to be out of memory.
    pub fn copy(&self, alloc: Global) -> Result<OutlineField, AllocError>
        ensures { IfOk result (λ f. f ≡ self.now) }
    {
        let name = self.name.copy(alloc)?;
        let of = self.of.copy(alloc)?;
        Ok(OutlineField {
            name,
            of,
            modifiers: self.modifiers,
            span: self.span,
        })
    }
}

impl OutlineMethod {
    /// An equal method. Its only error is to be out of memory.
    pub fn copy(&self, alloc: Global) -> Result<OutlineMethod, AllocError>
        ensures { IfOk result (λ m. m ≡ self.now) }
    {
        let name = self.name.copy(alloc)?;
        let params = copy_spelled_types(alloc, self.params.as_slice())?;
        let result = self.result.copy(alloc)?;
        Ok(OutlineMethod {
            name,
            params,
            result,
            modifiers: self.modifiers,
            span: self.span,
        })
    }
}

impl OutlineType {
    /// An equal type. Its only error is to be out of memory.
    pub fn copy(&self, alloc: Global) -> Result<OutlineType, AllocError>
        ensures { IfOk result (λ t. t ≡ self.now) }
    {
        let name = self.name.copy(alloc)?;
        let locals = copy_numbers(alloc, self.locals.as_slice())?;
        let extends = copy_names(alloc, self.extends.as_slice())?;
        let implements = copy_names(alloc, self.implements.as_slice())?;
        let fields = copy_fields(alloc, self.fields.as_slice())?;
        let methods = copy_methods(alloc, self.methods.as_slice())?;
        let constructors = copy_methods(alloc, self.constructors.as_slice())?;
        Ok(OutlineType {
            kind: self.kind,
            local: self.local,
            name,
            span: self.span,
            modifiers: self.modifiers,
            parent: self.parent,
            locals,
            extends,
            implements,
            fields,
            methods,
            constructors,
        })
    }
}

impl Outline {
    /// An equal outline. Its only error is to be out of memory.
    pub fn copy(&self, alloc: Global) -> Result<Outline, AllocError>
        ensures { IfOk result (λ o. o ≡ self.now) }
    {
        let package = copy_texts(alloc, self.package.as_slice())?;
        let imports = copy_imports(alloc, self.imports.as_slice())?;
        let types = copy_outline_types(alloc, self.types.as_slice())?;
        Ok(Outline {
            package,
            imports,
            types,
        })
    }
}

fn copy_spelled_types(
    alloc: Global,
    types: &[SpelledType],
) -> Result<Items<SpelledType>, AllocError>
    ensures { IfOk result (λ copies. copies ≡ types.now) }
{
    let mut copies = Vec::with_capacity(alloc, types.len())?;
    for spelled in types {
        copies.push(spelled.copy(alloc)?)?;
    }
    Ok(Items::from_vec(copies))
}

fn copy_fields(alloc: Global, fields: &[OutlineField]) -> Result<Items<OutlineField>, AllocError>
    ensures { IfOk result (λ copies. copies ≡ fields.now) }
{
    let mut copies = Vec::with_capacity(alloc, fields.len())?;
    for field in fields {
        copies.push(field.copy(alloc)?)?;
    }
    Ok(Items::from_vec(copies))
}

fn copy_methods(
    alloc: Global,
    methods: &[OutlineMethod],
) -> Result<Items<OutlineMethod>, AllocError>
    ensures { IfOk result (λ copies. copies ≡ methods.now) }
{
    let mut copies = Vec::with_capacity(alloc, methods.len())?;
    for method in methods {
        copies.push(method.copy(alloc)?)?;
    }
    Ok(Items::from_vec(copies))
}

fn copy_imports(alloc: Global, imports: &[ImportName]) -> Result<Items<ImportName>, AllocError>
    ensures { IfOk result (λ copies. copies ≡ imports.now) }
{
    let mut copies = Vec::with_capacity(alloc, imports.len())?;
    for import in imports {
        copies.push(import.copy(alloc)?)?;
    }
    Ok(Items::from_vec(copies))
}

fn copy_outline_types(
    alloc: Global,
    types: &[OutlineType],
) -> Result<Items<OutlineType>, AllocError>
    ensures { IfOk result (λ copies. copies ≡ types.now) }
{
    let mut copies = Vec::with_capacity(alloc, types.len())?;
    for declared in types {
        copies.push(declared.copy(alloc)?)?;
    }
    Ok(Items::from_vec(copies))
}
