//! The choice of a method or constructor (JLS 15.12.2).

ghost use Rattle.std.specs.Prelude.{◌≡◌, drop, slice_get, IfOk};
ghost use Rattle.std.specs.List.{filter, list_all, list_any};
ghost use Rattle.java_model.specs.Names.Methods.{same_signature};
ghost use Rattle.java_model.specs.Names.Overloads.{all_convert, choose, chosen, have_one_signature, is_applicable, is_maximal, is_more_specific, is_unknown, maximal, most_specific};

use crate::first::one_of_signature;
use java_env::Env;
use java_tree::{Choice, Items, JType, MethodId};
use std::alloc::{AllocError, Global};

/// Whether there are as many types, and each converts (JLS 15.12.2.1).
fn all_convert(env: &Env, from: &[JType], to: &[JType]) -> bool
    ensures { result ≡ all_convert env.now from.now to.now }
{
    let mut others = to;
    for of in from {
        let [other, ..] = others else {
            return false;
        };
        if !env.converts(of, other) {
            return false;
        }
        others = &others[1..];
    }
    others.is_empty()
}

fn is_applicable(env: &Env, args: &[JType], m: MethodId) -> bool
    ensures { result ≡ is_applicable env.now args.now m }
{
    all_convert(env, args, env.params(m))
}

/// Those of the methods that can be called with these arguments.
fn applicable(
    alloc: Global,
    env: &Env,
    methods: &[MethodId],
    args: &[JType],
) -> Result<Items<MethodId>, AllocError>
    ensures { IfOk result (λ ms. ms ≡ filter (is_applicable env.now args.now) methods.now) }
{
    let mut found = Items::new(alloc);
    for m in methods {
        if is_applicable(env, args, *m) {
            found.push(*m)?;
        }
    }
    Ok(found)
}

/// Whether a method is more specific than another, or the same (JLS 15.12.2.2).
fn is_more_specific(env: &Env, m: MethodId, n: MethodId) -> bool
    ensures { result ≡ is_more_specific env.now m n }
{
    env.converts(&JType::Class(m.of), &JType::Class(n.of))
        && all_convert(env, env.params(m), env.params(n))
}

/// Whether no other method is more specific without the converse.
fn is_maximal(env: &Env, among: &[MethodId], m: MethodId) -> bool
    ensures { result ≡ is_maximal env.now among.now m }
{
    among.iter().all(|n| !is_more_specific(env, *n, m) || is_more_specific(env, m, *n))
}

/// The maximally specific of the methods.
fn maximal(alloc: Global, env: &Env, among: &[MethodId]) -> Result<Items<MethodId>, AllocError>
    ensures { IfOk result (λ ms. ms ≡ maximal env.now among.now) }
{
    let mut found = Items::new(alloc);
    for m in among {
        if is_maximal(env, among, *m) {
            found.push(*m)?;
        }
    }
    Ok(found)
}

fn all_alike(env: &Env, first: MethodId, others: &[MethodId]) -> bool
    ensures { result ≡ list_all (same_signature env.now first) others.now }
{
    others.iter().all(|m| env.same_signature(first, *m))
}

fn past_first(methods: &[MethodId]) -> &[MethodId]
    ensures { result.now ≡ drop 1 methods.now }
{
    match methods {
        [] => methods,
        [_, rest @ ..] => rest,
    }
}

fn first_in(methods: &[MethodId]) -> Option<MethodId>
    ensures { result ≡ slice_get methods.now 0 }
{
    match methods {
        [] => None,
        [first, ..] => Some(*first),
    }
}

/// Whether there are methods, all of one signature.
fn have_one_signature(env: &Env, methods: &[MethodId]) -> bool
    ensures { result ≡ have_one_signature env.now methods.now }
{
    match first_in(methods) {
        Some(first) => all_alike(env, first, past_first(methods)),
        None => false,
    }
}

/// What is chosen among the maximally specific methods.
fn most_specific(env: &Env, methods: Items<MethodId>) -> Choice
    ensures { result ≡ most_specific env.now methods }
{
    if let [one] = methods.as_slice() {
        return Choice::One(*one);
    }
    if have_one_signature(env, methods.as_slice()) {
        one_of_signature(env, methods.as_slice())
    } else {
        Choice::Ambiguous(methods)
    }
}

fn has_unknown(args: &[JType]) -> bool
    ensures { result ≡ list_any is_unknown args.now }
{
    args.iter().any(|of| matches!(of, JType::Unknown))
}

/// What is chosen among the applicable methods.
fn chosen(
    alloc: Global,
    env: &Env,
    args: &[JType],
    methods: &[MethodId],
) -> Result<Choice, AllocError>
    ensures { IfOk result (λ c. c ≡ chosen env.now args.now methods.now) }
{
    match methods {
        [] => Ok(Choice::NoMethod),
        [one] => Ok(Choice::One(*one)),
        _ => {
            if has_unknown(args) {
                return Ok(Choice::UnknownArgs);
            }
            Ok(most_specific(env, maximal(alloc, env, methods)?))
        }
    }
}

/// Which of the methods that are accessible a call with arguments of these types means (JLS 15.12.2).
pub fn choose(
    alloc: Global,
    env: &Env,
    methods: &[MethodId],
    args: &[JType],
) -> Result<Choice, AllocError>
    ensures { IfOk result (λ c. c ≡ choose env.now methods.now args.now) }
{
    let found = applicable(alloc, env, methods, args)?;
    chosen(alloc, env, args, found.as_slice())
}
