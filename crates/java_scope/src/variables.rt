//! Variables at a place (JLS 6.5.6.1).

ghost use Rattle.std.specs.Prelude.{◌≡◌, ◌≤◌, ◌⊎◌, IfOk};
ghost use Rattle.java_model.specs.Scopes.NameKinds.{variable_at, variable_kind};
ghost use Rattle.java_scope.specs.Linked.{upto};
ghost use Rattle.java_scope.specs.Units.{context};

use crate::kinds::field_kind;
use crate::scope::Scope;
use crate::unit_context::UnitContext;
use java_env::Env;
use java_tree::{Bound, NameKind};
use std::alloc::{AllocError, Global};

/// The variable or the field of a name that a bound brings into scope.
fn variable_at(
    alloc: Global,
    env: &Env,
    name: &str,
    bound: &Bound,
) -> Result<Option<NameKind>, AllocError>
    ensures { IfOk result (λ k. k ≡ variable_at env.now name.now bound.now) }
{
    match bound {
        Bound::Variable(own, t) if name == own.as_str() => Ok(Some(NameKind::Local(t.copy(
            alloc,
        )?))),
        Bound::Members(t) => field_kind(alloc, env, *t, name),
        _ => Ok(None),
    }
}

/// The greater of two places.
fn later(a: Option<u64>, b: Option<u64>) -> Option<u64>
    ensures a { upto a ≤ upto result }
    ensures b { upto b ≤ upto result }
    ensures one { (result ≡ a) ⊎ (result ≡ b) }
{
    match (a, b) {
        (Some(x), Some(y)) if x < y => b,
        (None, _) => b,
        _ => a,
    }
}

/// The local variable, the parameter or the field of a name, the innermost (JLS 6.3, 6.5.6.1). It goes to the
/// innermost variable of the name and to the types around it.
pub fn variable_kind(
    alloc: Global,
    unit: &UnitContext<'_>,
    scope: &Scope,
    name: &str,
) -> Result<Option<NameKind>, AllocError>
    ensures { IfOk result (λ k. k ≡ variable_kind (context unit.now) scope.now name.now) }
{
    let local = scope.variable(name);
    let mut next = scope.body();
    while let Some(place) = later(local, next) {
        let entry = scope.linked(place);
        let found = variable_at(alloc, unit.env, name, &entry.bound)?;
        if found.is_some() {
            return Ok(found);
        }
        next = entry.body;
    }
    Ok(None)
}
