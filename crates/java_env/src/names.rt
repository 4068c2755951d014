//! Members and types by their names.

ghost use Rattle.std.specs.Prelude.{◌≡◌, Some, IfOk};
ghost use Rattle.java_model.specs.Names.Environments.{Declared, declared_at};
ghost use Rattle.java_model.specs.Names.Fields.{field_named, fields};
ghost use Rattle.java_model.specs.Names.MemberTypes.{member_types, resolve};
ghost use Rattle.java_model.specs.Names.Supertypes.{resolve_in_header};
ghost use Rattle.java_model.specs.Names.TypeNames.{import_type};
ghost use Rattle.java_model.specs.Scopes.TypeNames.{header_kinds, kinds_by, kinds_in_import};
ghost use Rattle.java_resolve.specs.Resolving.{scope_of};

use crate::env::Env;
use java_resolve::TypeBound;
use java_supers::Headers;
use java_tree::{FieldId, Items, JType, NameKind, Outline, Text, TypeId};
use std::alloc::{AllocError, Global};

impl Env {
    /// The member types of a name that a type has, in order of declaration (JLS 8.5, 9.5).
    pub fn member_types(
        &self,
        alloc: Global,
        t: TypeId,
        name: &str,
    ) -> Result<Items<TypeId>, AllocError>
        ensures { IfOk result (λ ts. ts ≡ member_types self.now t name.now) }
    {
        java_members::member_types(alloc, self.hierarchy(), t, name)
    }

    /// The fields of a name that a type has, in order of declaration (JLS 8.3, 9.3).
    pub fn fields(&self, alloc: Global, t: TypeId, name: &str) -> Result<Items<FieldId>, AllocError>
        ensures { IfOk result (λ fs. fs ≡ fields self.now t name.now) }
    {
        java_members::fields(alloc, self.hierarchy(), t, name)
    }

    /// The field that a name means: the first that is declared, else the only one that is inherited (JLS 8.3.3).
    pub fn field_named(
        &self,
        alloc: Global,
        t: TypeId,
        name: &str,
    ) -> Result<Option<FieldId>, AllocError>
        ensures { IfOk result (λ f. f ≡ field_named self.now t name.now) }
    {
        java_members::field_named(alloc, self.hierarchy(), t, name)
    }

    /// What a type name means in a scope: Class or Absent (JLS 6.5.5).
    pub fn resolve(
        &self,
        alloc: Global,
        outline: &Outline,
        bounds: &[TypeBound],
        name: &[Text],
    ) -> Result<JType, AllocError>
        ensures { IfOk result (λ t. t ≡ resolve self.now (scope_of outline.now bounds.now) name.now) }
    {
        java_members::resolve(alloc, self.hierarchy(), outline, bounds, name)
    }

    /// What each identifier of a type name means in a scope (JLS 6.5.4, 6.5.5).
    pub fn type_name_kinds(
        &self,
        alloc: Global,
        outline: &Outline,
        bounds: &[TypeBound],
        name: &[Text],
    ) -> Result<Items<NameKind>, AllocError>
        ensures { IfOk result (λ ks. ks ≡ kinds_by self.now (member_types self.now) (resolve self.now (scope_of outline.now bounds.now)) name.now) }
    {
        java_members::type_name_kinds(alloc, self.hierarchy(), outline, bounds, name)
    }

    /// What a name in the header of a type means (JLS 8.1.3, 8.1.4, 9.1.2, 15.9.5).
    pub fn resolve_in_header(
        &self,
        alloc: Global,
        t: TypeId,
        name: &[Text],
    ) -> Result<JType, AllocError>
        ensures { (d : Declared) → declared_at self.now t ≡ Some d → IfOk result (λ of. of ≡ resolve_in_header self.now d t name.now) }
    {
        let Some(d) = self.types().declared_type(t) else {
            return Err(AllocError);
        };
        let mut headers = Headers::new(alloc, self.hierarchy())?;
        let found = headers.resolve_in_header(alloc, &d, t, name)?;
        Ok(found)
    }

    /// What each identifier of a name in the header of a type means.
    pub fn header_kinds(
        &self,
        alloc: Global,
        t: TypeId,
        name: &[Text],
    ) -> Result<Items<NameKind>, AllocError>
        ensures { (d : Declared) → declared_at self.now t ≡ Some d → IfOk result (λ ks. ks ≡ header_kinds self.now d t name.now) }
    {
        let Some(d) = self.types().declared_type(t) else {
            return Err(AllocError);
        };
        let mut headers = Headers::new(alloc, self.hierarchy())?;
        let found = headers.header_kinds(alloc, &d, t, name)?;
        Ok(found)
    }

    /// What the name of an import means (JLS 7.5).
    pub fn import_type(&self, alloc: Global, name: &[Text]) -> Result<JType, AllocError>
        ensures { IfOk result (λ t. t ≡ import_type self.now (member_types self.now) name.now) }
    {
        java_members::import_type(alloc, self.hierarchy(), name)
    }

    /// What each identifier of the name of an import means, which `.*` follows or not (JLS 7.5).
    pub fn kinds_in_import(
        &self,
        alloc: Global,
        star: bool,
        name: &[Text],
    ) -> Result<Items<NameKind>, AllocError>
        ensures { IfOk result (λ ks. ks ≡ kinds_in_import self.now star name.now) }
    {
        java_members::kinds_in_import(alloc, self.hierarchy(), star, name)
    }
}
