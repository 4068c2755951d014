ghost use Rattle.std.specs.Prelude.{◌≡◌, IfOk};
ghost use Rattle.std.specs.Option.{option_copied};
ghost use Rattle.java_model.specs.Names.Conversions.{converts};
ghost use Rattle.java_model.specs.Names.Environments.{declared_at, object};
ghost use Rattle.java_model.specs.Names.Fields.{field_info};
ghost use Rattle.java_model.specs.Names.Methods.{method_info};
ghost use Rattle.java_model.specs.Names.Supertypes.{is_sub, supers};
ghost use Rattle.java_env.specs.Members.{body_count, method_count, top_kept};

use crate::conversions::{converts, is_sub, supers};
use crate::kept::{bodies_in, body_in, field_in, methods_in, top_in};
use crate::known_types::KnownTypes;
use crate::members::{Members, all_members};
use java_supers::Hierarchy;
use java_tree::{FieldId, FieldInfo, Items, JType, MethodId, MethodInfo, TypeId};
use java_types::{DeclaredTypes, EnvDocs};
use std::alloc::{AllocError, Global};
use std::marker::Model;

/// The types that documents declare, with their supertypes and members.
#[derive(Debug, Drop)]
pub struct Env {
    hierarchy: Hierarchy,
    known: KnownTypes,
    members: Items<Members>,
}

impl Model for Env {
    ghost use Rattle.std.specs.Prelude.{List};
    ghost use Rattle.java_model.specs.Names.Environments.{EnvDocument};
    ghost use Rattle.java_supers.specs.Reaching.{HasAll};
    ghost use Rattle.java_env.specs.KnownTypes.{AreOf};
    ghost use Rattle.java_env.specs.Members.{members_of};

    ghost Value = { List EnvDocument };

    ghost view = { λ e. e.hierarchy };

    ghost invariant = { λ e. AreOf e.hierarchy e.known × HasAll (members_of e.hierarchy) e.hierarchy e.members };
}

impl Env {
    /// The environment of these documents. The types of all fields and methods are resolved once.
    pub fn of(alloc: Global, docs: EnvDocs) -> Result<Env, AllocError>
        ensures { IfOk result (λ env. env ≡ docs) }
    {
        let hierarchy = Hierarchy::of(alloc, docs)?;
        let known = KnownTypes::of(alloc, hierarchy.types())?;
        let members = all_members(alloc, &hierarchy)?;
        Ok(Env {
            hierarchy,
            known,
            members,
        })
    }

    /// The types with their supertypes.
    pub fn hierarchy(&self) -> &Hierarchy
        ensures { result.now ≡ self.now }
    {
        &self.hierarchy
    }

    /// The types.
    pub fn types(&self) -> &DeclaredTypes
        ensures { result.now ≡ self.now }
    {
        self.hierarchy.types()
    }

    /// The class `java.lang.Object` (JLS 4.3.2).
    pub fn object(&self) -> TypeId
        ensures { result ≡ object self.now }
    {
        self.known.object
    }

    /// The direct supertypes of a type, its superclass first (JLS 8.1.3, 8.1.4, 9.1.2).
    pub fn supers(&self, t: TypeId) -> &[JType]
        ensures { result.now ≡ supers self.now t }
    {
        supers(&self.hierarchy, t)
    }

    /// Whether a type is a subtype of another.
    pub fn is_sub(&self, s: TypeId, t: TypeId) -> bool
        ensures { result ≡ is_sub self.now s t }
    {
        is_sub(&self.hierarchy, s, t)
    }

    /// Whether a value of a type may be passed for a parameter of another (JLS 5.3).
    pub fn converts(&self, from: &JType, to: &JType) -> bool
        ensures { result ≡ converts self.now from.now to.now }
    {
        converts(&self.hierarchy, &self.known, from, to)
    }

    /// What is known of a field, none of one that isn't in the environment.
    pub fn find_field(&self, f: FieldId) -> Option<&FieldInfo>
        ensures { option_copied result ≡ field_info self.now f }
    {
        field_in(self.members.as_slice(), f)
    }

    /// What is known of a method or constructor, none of one that isn't in the environment.
    pub fn find_method(&self, m: MethodId) -> Option<&MethodInfo>
        ensures { option_copied result ≡ method_info self.now m }
    {
        body_in(self.members.as_slice(), m)
    }

    /// How many methods a type declares. Its constructors have the places after them.
    pub fn method_count(&self, t: TypeId) -> u64
        ensures { result ≡ method_count self.now t }
    {
        methods_in(self.members.as_slice(), t)
    }

    /// How many methods and constructors a type declares, the default one included (JLS 8.8.7).
    pub fn body_count(&self, t: TypeId) -> u64
        ensures { result ≡ body_count self.now t }
    {
        bodies_in(self.members.as_slice(), t)
    }

    /// The top level type around a type (JLS 7.6).
    pub fn top_level(&self, t: TypeId) -> Option<TypeId>
        ensures { result ≡ top_kept (declared_at self.now t) }
    {
        top_in(self.members.as_slice(), t)
    }
}
