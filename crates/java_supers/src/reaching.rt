//! What a table of lists leads to.

ghost use Rattle.std.specs.Prelude.{◌≡◌, [], ◌∷◌, false, length, IfOk, OnOk};
ghost use Rattle.std.specs.List.{flat_map};
ghost use Rattle.java_tree.specs.declared.occurrence.TypeId.{TypeId as AnId};
ghost use Rattle.java_supers.specs.Keeping.{has_mark};
ghost use Rattle.java_supers.specs.Reaching.{next_in, reached_in, Adds, AreMarked};

use crate::marks::{has_mark, set_mark};
use java_tree::{Items, TypeId};
use std::alloc::{AllocError, Global};

pub(crate) fn next_in(nexts: &[Items<TypeId>], t: TypeId) -> &[TypeId]
    ensures { result.now ≡ next_in nexts.now t }
{
    match nexts.get(t.0 as usize) {
        Some(next) => next.as_slice(),
        None => &[],
    }
}

/// So many types, none marked.
pub(crate) fn unmarked(alloc: Global, count: usize) -> Result<Items<bool>, AllocError>
    ensures { IfOk result (λ marks. (u : AnId) → has_mark marks u ≡ false) }
{
    let marks = vec![in alloc; false; count]?;
    Ok(Items::from_vec(marks))
}

/// Adds a type that isn't marked, and marks it.
fn add_one(marks: &mut Items<bool>, t: TypeId, new: &mut Items<TypeId>) -> Result<(), AllocError>
    ensures { OnOk result (Adds marks.old marks.new (t ∷ []) new.old new.new) }
{
    if has_mark(marks.as_slice(), t) {
        return Ok(());
    }
    if t.0 >= marks.len() as u64 {
        return Err(AllocError);
    }
    set_mark(marks, t, true);
    new.push(t)?;
    Ok(())
}

fn add_new(
    marks: &mut Items<bool>,
    types: &[TypeId],
    new: &mut Items<TypeId>,
) -> Result<(), AllocError>
    ensures { OnOk result (Adds marks.old marks.new types.now new.old new.new) }
{
    for t in types {
        add_one(marks, *t, new)?;
    }
    Ok(())
}

/// The types that those of a front lead to and that aren't marked.
fn next_front(
    alloc: Global,
    nexts: &[Items<TypeId>],
    front: &[TypeId],
    marks: &mut Items<bool>,
) -> Result<Items<TypeId>, AllocError>
    ensures { IfOk result (λ new. Adds marks.old marks.new (flat_map (next_in nexts.now) front.now) [] new) }
{
    let mut new = Items::new(alloc);
    for t in front {
        add_new(marks, next_in(nexts, *t), &mut new)?;
    }
    Ok(new)
}

/// What a type leads to, which is marked then. It goes once over the lists of the types reached.
fn marked_from(
    alloc: Global,
    nexts: &[Items<TypeId>],
    marks: &mut Items<bool>,
    t: TypeId,
) -> Result<Items<TypeId>, AllocError>
    requires { (u : AnId) → has_mark marks.old u ≡ false }
    ensures value { IfOk result (λ ts. ts ≡ reached_in nexts.now t) }
    ensures marked { IfOk result (λ ts. AreMarked marks.new ts) }
{
    let mut seen = Items::new(alloc);
    let mut front = Items::new(alloc);
    front.push(t)?;
    for step in 0..nexts.len() + 1 {
        if front.is_empty() {
            return Ok(seen);
        }
        let new = next_front(alloc, nexts, front.as_slice(), marks)?;
        seen.append(Items::from_slice(alloc, new.as_slice())?)?;
        front = new;
    }
    Ok(seen)
}

/// Takes the marks of types away.
fn unmark(marks: &mut Items<bool>, types: &[TypeId])
    requires { AreMarked marks.old types.now }
    ensures { (u : AnId) → has_mark marks.new u ≡ false }
{
    for t in types {
        set_mark(marks, *t, false);
    }
}

/// What a type leads to. No type is marked before and after it.
pub(crate) fn reached_in(
    alloc: Global,
    nexts: &[Items<TypeId>],
    marks: &mut Items<bool>,
    t: TypeId,
) -> Result<Items<TypeId>, AllocError>
    requires { (u : AnId) → has_mark marks.old u ≡ false }
    ensures value { IfOk result (λ ts. ts ≡ reached_in nexts.now t) }
    ensures unmarked { OnOk result ((u : AnId) → has_mark marks.new u ≡ false) }
{
    let reached = marked_from(alloc, nexts, marks, t)?;
    unmark(marks, reached.as_slice());
    Ok(reached)
}
