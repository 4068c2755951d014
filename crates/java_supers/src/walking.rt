//! What types lead to, where none leads back to itself.

ghost use Rattle.std.specs.Prelude.{◌≡◌, drop, false, IfOk, OnOk};
ghost use Rattle.java_tree.specs.declared.occurrence.TypeId.{TypeId as AnId};
ghost use Rattle.java_model.specs.Names.Environments.{same_id};
ghost use Rattle.java_model.specs.Names.Lists.{is_among};
ghost use Rattle.java_supers.specs.Keeping.{has_mark};
ghost use Rattle.java_supers.specs.Ranking.{HaveRanks};
ghost use Rattle.java_supers.specs.Reaching.{next_in, reached_in};
ghost use Rattle.java_supers.specs.Walking.{beside_in, AreBeside};

use crate::reaching::{next_in, reached_in, unmarked};
use java_resolve::is_among;
use java_tree::{Items, TypeId};
use std::alloc::{AllocError, Global};

/// The types that a type leads to directly, but for the first.
fn others_in(nexts: &[Items<TypeId>], t: TypeId) -> &[TypeId]
    ensures { result.now ≡ drop 1 (next_in nexts.now t) }
{
    match next_in(nexts, t) {
        [] => &[],
        [_, others @ ..] => others,
    }
}

/// What a type leads to but by the first type to which it does.
fn beside_in(
    alloc: Global,
    nexts: &[Items<TypeId>],
    marks: &mut Items<bool>,
    t: TypeId,
) -> Result<Items<TypeId>, AllocError>
    requires { (u : AnId) → has_mark marks.old u ≡ false }
    ensures value { IfOk result (λ ts. ts ≡ beside_in nexts.now t) }
    ensures unmarked { OnOk result ((u : AnId) → has_mark marks.new u ≡ false) }
{
    let mut beside = Items::new(alloc);
    let others = others_in(nexts, t);
    for other in others {
        beside.push(*other)?;
        beside.append(reached_in(alloc, nexts, marks, *other)?)?;
    }
    Ok(beside)
}

/// The same for each type. A type that leads to one alone takes no memory.
pub(crate) fn all_beside(
    alloc: Global,
    nexts: &[Items<TypeId>],
) -> Result<Items<Items<TypeId>>, AllocError>
    ensures { IfOk result (λ table. AreBeside nexts.now table) }
{
    let mut marks = unmarked(alloc, nexts.len())?;
    let mut table = Items::new(alloc);
    for number in 0..nexts.len() {
        let beside = beside_in(alloc, nexts, &mut marks, TypeId(number as u64))?;
        table.push(beside)?;
    }
    Ok(table)
}

/// Whether a type leads to another. It goes from each type to the first that it leads to, and looks among those beside.
pub(crate) fn leads_to(
    nexts: &[Items<TypeId>],
    beside: &[Items<TypeId>],
    s: TypeId,
    t: TypeId,
) -> bool
    requires ranked { HaveRanks nexts.now }
    requires beside { AreBeside nexts.now beside.now }
    ensures { result ≡ is_among same_id t (reached_in nexts.now s) }
{
    let mut of = s;
    for step in 0..nexts.len() {
        if is_among(t, next_in(beside, of)) {
            return true;
        }
        match next_in(nexts, of) {
            [] => return false,
            [first, ..] => {
                if first.0 == t.0 {
                    return true;
                }
                of = *first;
            }
        }
    }
    false
}
