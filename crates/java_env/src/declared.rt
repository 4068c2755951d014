//! The methods and constructors that a type declares.

ghost use Rattle.std.specs.Prelude.{◌≡◌, ◌∷◌, ◌++◌, [], bytes_eq, IfOk, OnOk};
ghost use Rattle.std.specs.List.{filter};
ghost use Rattle.java_model.specs.Names.Methods.{constructors, declared_methods, method_name};

use crate::env::Env;
use java_tree::{Items, MethodId, TypeId};
use std::alloc::{AllocError, Global};

/// Adds a method, if this is its name.
fn add_named(
    env: &Env,
    name: &str,
    m: MethodId,
    ids: &mut Items<MethodId>,
) -> Result<(), AllocError>
    ensures { OnOk result (ids.new ≡ ids.old ++ filter (λ n. bytes_eq name.now (method_name env.now n)) (m ∷ [])) }
{
    if name == env.method_name(m) {
        ids.push(m)?;
    }
    Ok(())
}

impl Env {
    /// The constructors of a class itself, the default one included (JLS 8.8).
    pub fn constructors(&self, alloc: Global, t: TypeId) -> Result<Items<MethodId>, AllocError>
        ensures { IfOk result (λ ms. ms ≡ constructors self.now t) }
    {
        let mut ids = Items::new(alloc);
        for place in self.method_count(t)..self.body_count(t) {
            ids.push(MethodId { of: t, place })?;
        }
        Ok(ids)
    }

    /// The methods of a name that a type declares (JLS 8.4, 9.4).
    pub fn declared_methods(
        &self,
        alloc: Global,
        t: TypeId,
        name: &str,
    ) -> Result<Items<MethodId>, AllocError>
        ensures { IfOk result (λ ms. ms ≡ declared_methods self.now t name.now) }
    {
        let mut ids = Items::new(alloc);
        for place in 0..self.method_count(t) {
            add_named(self, name, MethodId { of: t, place }, &mut ids)?;
        }
        Ok(ids)
    }
}
