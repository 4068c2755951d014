//! The first of methods in order of declaration.

ghost use Rattle.std.specs.Prelude.{◌≡◌, ◌&&◌, cond, not};
ghost use Rattle.std.specs.List.{find};
ghost use Rattle.java_model.specs.Names.Methods.{is_abstract};
ghost use Rattle.java_model.specs.Names.Overloads.{by_declaration, one_of_signature};
ghost use Rattle.java_overload.specs.First.{comes_before, counts, earlier};

use java_env::Env;
use java_tree::{Choice, MethodId};

/// Whether a method is declared before another: in an earlier type, or earlier in the same type.
fn comes_before(m: MethodId, n: MethodId) -> bool
    ensures { result ≡ comes_before m n }
{
    m.of.0 < n.of.0 || m.of.0 == n.of.0 && m.place < n.place
}

/// Whether a method is one of the environment, and isn't abstract if that is asked for.
fn counts(env: &Env, concrete: bool, m: MethodId) -> bool
    ensures { result ≡ counts env.now concrete m }
{
    env.has_method(m) && !(concrete && env.is_abstract(m))
}

fn earlier(m: MethodId, first: Option<MethodId>) -> Option<MethodId>
    ensures { result ≡ earlier m first }
{
    match first {
        Some(n) if !comes_before(m, n) => Some(n),
        _ => Some(m),
    }
}

/// The first of a method and those before, if it counts.
fn first_with(env: &Env, concrete: bool, m: MethodId, first: Option<MethodId>) -> Option<MethodId>
    ensures { result ≡ cond (counts env.now concrete m) (earlier m first) first }
{
    if counts(env, concrete, m) {
        earlier(m, first)
    } else {
        first
    }
}

/// The first that counts.
fn first_of(env: &Env, concrete: bool, methods: &[MethodId]) -> Option<MethodId>
    ensures { result ≡ find (λ m. not (concrete && is_abstract env.now m)) (by_declaration env.now methods.now) }
{
    let mut first = None;
    for m in methods {
        first = first_with(env, concrete, *m, first);
    }
    first
}

/// Of several methods of one signature the first that isn't abstract, else the first.
pub(crate) fn one_of_signature(env: &Env, methods: &[MethodId]) -> Choice
    ensures { result ≡ one_of_signature env.now (by_declaration env.now methods.now) }
{
    if let Some(m) = first_of(env, true, methods) {
        return Choice::One(m);
    }
    match first_of(env, false, methods) {
        Some(m) => Choice::One(m),
        None => Choice::NoMethod,
    }
}
