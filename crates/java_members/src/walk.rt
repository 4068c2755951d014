//! The members of a type and what it inherits, by an explicit stack.

ghost use Rattle.std.specs.Prelude.{◌++◌, IfOk, IfSome, IsTrue, List, OnOk};
ghost use Rattle.std.specs.List.{flat_map};
ghost use Rattle.java_tree.specs.declared.occurrence.TypeId.{TypeId as AnId};
ghost use Rattle.java_model.specs.Names.TypeNames.{class_of};
ghost use Rattle.java_members.specs.Inheriting.{AreOf};
ghost use Rattle.java_members.specs.Members.{Rising, Same};
ghost use Rattle.java_members.specs.declared.member.Member.{Member as AMember};

use crate::answers::Answers;
use crate::inherits::Inherits;
use crate::member::Member;
use crate::ordering::in_order;
use java_tree::{Items, JType, TypeId};
use std::alloc::{AllocError, Global};

/// Adds the members of a class. Says whether they are known: nothing is to be known of what is no class.
fn add_of(
    alloc: Global,
    answers: &Answers,
    of: &JType,
    members: &mut Items<Member>,
) -> Result<bool, AllocError>
    ensures { (all : AnId → List AMember) → AreOf all answers.now.answers → IfOk result (λ known. IsTrue known → Same members.new (members.old ++ flat_map all (class_of of.now))) }
{
    let JType::Class(t) = of else {
        return Ok(true);
    };
    let Some(found) = answers.find(*t) else {
        return Ok(false);
    };
    members.append(Items::from_slice(alloc, found.as_slice())?)?;
    Ok(true)
}

/// The members of types, none where one wasn't asked.
fn inherited<I: Inherits>(
    alloc: Global,
    rule: &I,
    answers: &Answers,
    types: &[JType],
) -> Result<Option<Items<Member>>, AllocError>
    requires { AreOf (I.all rule.now) answers.now.answers }
    ensures { IfOk result (λ o. IfSome o (λ ms. Same ms (flat_map (I.all rule.now) (flat_map class_of types.now)))) }
{
    let mut members = Items::new(alloc);
    for of in types {
        if !add_of(alloc, answers, of, &mut members)? {
            return Ok(None);
        }
    }
    Ok(Some(members))
}

/// The same, each once: in a lattice of types the members of its lowest come by many ways.
fn inherited_once<I: Inherits>(
    alloc: Global,
    rule: &I,
    answers: &Answers,
    types: &[JType],
) -> Result<Option<Items<Member>>, AllocError>
    requires { AreOf (I.all rule.now) answers.now.answers }
    ensures { IfOk result (λ o. IfSome o (λ ms. Same ms (flat_map (I.all rule.now) (flat_map class_of types.now)))) }
{
    match inherited(alloc, rule, answers, types)? {
        Some(members) => Ok(Some(in_order(alloc, members.as_slice())?)),
        None => Ok(None),
    }
}

/// The members of a type, none where a supertype that counts wasn't asked.
fn answer<I: Inherits>(
    alloc: Global,
    rule: &I,
    answers: &Answers,
    t: TypeId,
) -> Result<Option<Items<Member>>, AllocError>
    requires { AreOf (I.all rule.now) answers.now.answers }
    ensures { IfOk result (λ o. IfSome o (λ ms. Same ms (I.all rule.now t))) }
{
    if let Some(own) = rule.own(alloc, t)? {
        return Ok(Some(own));
    }
    match inherited_once(alloc, rule, answers, rule.supers(t))? {
        Some(members) => Ok(Some(rule.inherit(alloc, t, members.as_slice())?)),
        None => Ok(None),
    }
}

/// Puts the types that weren't asked on the stack.
fn add_waiting(
    answers: &Answers,
    types: &[JType],
    waiting: &mut Items<TypeId>,
) -> Result<(), AllocError> {
    for of in types {
        if let JType::Class(t) = of {
            if answers.find(*t).is_none() {
                waiting.push(*t)?;
            }
        }
    }
    Ok(())
}

/// Answers for a type, or puts it on the stack, and above it those that have to be asked before.
fn turn<I: Inherits>(
    alloc: Global,
    rule: &I,
    answers: &mut Answers,
    waiting: &mut Items<TypeId>,
    t: TypeId,
) -> Result<(), AllocError>
    requires { AreOf (I.all rule.now) answers.old.answers }
    ensures { OnOk result (AreOf (I.all rule.now) answers.new.answers) }
{
    if answers.find(t).is_some() {
        return Ok(());
    }
    match answer(alloc, rule, answers, t)? {
        Some(members) => answers.add(t, members),
        None => {
            waiting.push(t)?;
            add_waiting(answers, rule.supers(t), waiting)
        }
    }
}

/// Asks a type and all that have to be asked before it. Each supertype is asked once.
fn settle<I: Inherits>(
    alloc: Global,
    rule: &I,
    answers: &mut Answers,
    t: TypeId,
) -> Result<(), AllocError>
    requires { AreOf (I.all rule.now) answers.old.answers }
    ensures { OnOk result (AreOf (I.all rule.now) answers.new.answers) }
{
    let mut waiting = Items::new(alloc);
    waiting.push(t)?;
    for _ in 0..u64::MAX {
        let Some(next) = waiting.pop() else {
            return Ok(());
        };
        turn(alloc, rule, answers, &mut waiting, next)?;
    }
    Err(AllocError)
}

/// The members of a type, found by way of its supertypes.
fn found<I: Inherits>(alloc: Global, rule: &I, t: TypeId) -> Result<Items<Member>, AllocError>
    ensures rising { IfOk result (λ ms. Rising ms) }
    ensures same { IfOk result (λ ms. Same ms (I.all rule.now t)) }
{
    let mut answers = Answers::new(alloc);
    settle(alloc, rule, &mut answers, t)?;
    match answers.find(t) {
        Some(members) => in_order(alloc, members.as_slice()),
        None => Err(AllocError),
    }
}

/// The members of a type, in order. No supertype is asked twice.
pub fn members_by<I: Inherits>(
    alloc: Global,
    rule: &I,
    t: TypeId,
) -> Result<Items<Member>, AllocError>
    ensures rising { IfOk result (λ ms. Rising ms) }
    ensures same { IfOk result (λ ms. Same ms (I.all rule.now t)) }
{
    match rule.own(alloc, t)? {
        Some(own) => in_order(alloc, own.as_slice()),
        None => found(alloc, rule, t),
    }
}
