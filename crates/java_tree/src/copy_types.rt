//! Copies of types.
ghost use Rattle.std.specs.Prelude.{◌≡◌, IfOk};

use crate::copy_lists::copy_texts;
use crate::types::{ArrayElement, JType};
use std::alloc::{AllocError, Global};

impl ArrayElement {
    /// An equal element type. Its only error is to be out of memory.
    pub fn copy(&self, alloc: Global) -> Result<ArrayElement, AllocError>
        ensures { IfOk result (λ e. e ≡ self.now) }
    {
        match self {
            ArrayElement::Primitive(primitive) => Ok(ArrayElement::Primitive(*primitive)),
            ArrayElement::Void => Ok(ArrayElement::Void),
            ArrayElement::Class(id) => Ok(ArrayElement::Class(*id)),
            ArrayElement::Absent(name) => Ok(ArrayElement::Absent(copy_texts(
                alloc,
                name.as_slice(),
            )?)),
        }
    }
}

impl JType {
    /// An equal type. Its only error is to be out of memory.
    pub fn copy(&self, alloc: Global) -> Result<JType, AllocError>
        ensures { IfOk result (λ t. t ≡ self.now) }
    {
        match self {
            JType::Primitive(primitive) => Ok(JType::Primitive(*primitive)),
            JType::Void => Ok(JType::Void),
            JType::Null => Ok(JType::Null),
            JType::Class(id) => Ok(JType::Class(*id)),
            JType::Absent(name) => Ok(JType::Absent(copy_texts(alloc, name.as_slice())?)),
            JType::Array(element, dims) => Ok(JType::Array(element.copy(alloc)?, *dims)),
            JType::Unknown => Ok(JType::Unknown),
        }
    }
}
