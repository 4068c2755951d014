//! What is known of fields, methods and constructors.

ghost use Rattle.std.specs.Prelude.{◌≡◌, [], Some, is_some, IfOk, IsTrue};
ghost use Rattle.java_model.specs.Bindings.Calls.{result_of};
ghost use Rattle.java_model.specs.Names.Fields.{field_info};
ghost use Rattle.java_model.specs.Names.Methods.{is_abstract, method_info, method_modifiers, method_name, params, same_signature};
ghost use Rattle.java_model.specs.Scopes.NameKinds.{field_type};

use crate::env::Env;
use crate::visibility::{ABSTRACT, has_bit, is_interface};
use java_jtypes::same_types;
use java_tree::{FieldId, JType, MethodId};
use std::alloc::{AllocError, Global};

impl Env {
    /// Whether a field is one of this environment.
    pub fn has_field(&self, f: FieldId) -> bool
        ensures { result ≡ is_some (field_info self.now f) }
    {
        self.find_field(f).is_some()
    }

    /// Whether a method or constructor is one of this environment.
    pub fn has_method(&self, m: MethodId) -> bool
        ensures { result ≡ is_some (method_info self.now m) }
    {
        self.find_method(m).is_some()
    }

    /// The declared type of a field (JLS 8.3).
    pub fn field_type(&self, alloc: Global, f: FieldId) -> Result<JType, AllocError>
        ensures { IfOk result (λ t. t ≡ field_type self.now f) }
    {
        match self.find_field(f) {
            Some(known) => known.of.copy(alloc),
            None => Ok(JType::Unknown),
        }
    }

    /// The declared type of what a call is bound to, Unknown where it is bound to nothing (JLS 15.12.3).
    pub fn result_of(&self, alloc: Global, m: Option<MethodId>) -> Result<JType, AllocError>
        ensures { IfOk result (λ t. t ≡ result_of self.now m) }
    {
        let Some(m) = m else {
            return Ok(JType::Unknown);
        };
        match self.find_method(m) {
            Some(known) => known.result.copy(alloc),
            None => Ok(JType::Unknown),
        }
    }

    /// The name of a method or constructor.
    pub fn method_name(&self, m: MethodId) -> &str
        ensures { result.now ≡ method_name self.now m }
    {
        match self.find_method(m) {
            Some(known) => known.name.as_str(),
            None => "",
        }
    }

    /// The parameter types of a method or constructor (JLS 8.4.1).
    pub fn params(&self, m: MethodId) -> &[JType]
        ensures { result.now ≡ params self.now m }
    {
        match self.find_method(m) {
            Some(known) => known.params.as_slice(),
            None => &[],
        }
    }

    /// The modifiers of a method or constructor (JLS 8.4.3).
    pub fn method_modifiers(&self, m: MethodId) -> u16
        ensures { result ≡ method_modifiers self.now m }
    {
        match self.find_method(m) {
            Some(known) => known.modifiers,
            None => 0,
        }
    }

    /// Whether a method is abstract. One of an interface is without the word too (JLS 9.4).
    pub fn is_abstract(&self, m: MethodId) -> bool
        ensures { result ≡ is_abstract self.now m }
    {
        is_interface(self.types(), m.of) || has_bit(self.method_modifiers(m), ABSTRACT)
    }

    /// Whether two methods have one name and the same parameter types (JLS 8.4.2).
    pub fn same_signature(&self, m: MethodId, n: MethodId) -> bool
        ensures { result ≡ same_signature self.now m n }
    {
        self.method_name(m) == self.method_name(n) && same_types(self.params(m), self.params(n))
    }
}
