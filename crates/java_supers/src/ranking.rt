//! Ranks of types: a type is ranked above all that it leads to, so one that has a rank is on no cycle.

ghost use Rattle.std.specs.Prelude.{◌≡◌, true, Some, None, is_some, map, slice_get, IfOk, OnOk};
ghost use Rattle.std.specs.List.{list_all};
ghost use Rattle.java_supers.specs.Ranking.{is_below, is_ranked, AreRanks, HaveRanks};

use crate::marks::{has_mark, set_mark};
use crate::reaching::{next_in, unmarked};
use java_tree::{Items, TypeId};
use std::alloc::{AllocError, Global};

/// A step of the walk along all supertypes: into a type, or out of it after those that it leads to.
#[derive(Clone, Copy)]
enum Visit {
    Enter(TypeId),
    Leave(TypeId),
}

fn is_below(ranks: &[Option<u64>], rank: u64, t: TypeId) -> bool
    ensures { result ≡ is_below ranks.now rank t }
{
    match ranks.get(t.0 as usize) {
        Some(Some(own)) => *own < rank,
        Some(None) => false,
        None => true,
    }
}

fn are_below(ranks: &[Option<u64>], rank: u64, types: &[TypeId]) -> bool
    ensures { result ≡ list_all (is_below ranks.now rank) types.now }
{
    types.iter().all(|t| is_below(ranks, rank, *t))
}

/// Whether a type has a rank, or is past the table.
pub(crate) fn is_ranked(ranks: &[Option<u64>], t: TypeId) -> bool
    ensures { result ≡ is_ranked ranks.now t }
{
    match ranks.get(t.0 as usize) {
        Some(own) => own.is_some(),
        None => true,
    }
}

/// The least rank above those of all these types.
fn rank_above(ranks: &[Option<u64>], types: &[TypeId]) -> u64 {
    let mut rank = 0;
    for t in types {
        if let Some(Some(own)) = ranks.get(t.0 as usize) {
            rank = rank.max(own.saturating_add(1));
        }
    }
    rank
}

fn has_no_rank(ranks: &[Option<u64>], t: TypeId) -> bool
    ensures { result ≡ true → slice_get ranks.now t.0 ≡ Some None }
{
    matches!(ranks.get(t.0 as usize), Some(None))
}

/// Ranks a type that has no rank yet, where all that it leads to have theirs.
fn rank_type(nexts: &[Items<TypeId>], ranks: &mut Items<Option<u64>>, t: TypeId)
    requires { AreRanks nexts.now ranks.old }
    ensures { AreRanks nexts.now ranks.new }
{
    let next = next_in(nexts, t);
    let rank = rank_above(ranks.as_slice(), next);
    if rank >= nexts.len() as u64 {
        return;
    }
    if !has_no_rank(ranks.as_slice(), t) {
        return;
    }
    if !are_below(ranks.as_slice(), rank, next) {
        return;
    }
    ranks.set(t.0 as usize, Some(rank));
}

/// Enters a type that wasn't entered yet: those that it leads to come before it is left.
fn enter(
    nexts: &[Items<TypeId>],
    entered: &mut Items<bool>,
    visits: &mut Items<Visit>,
    t: TypeId,
) -> Result<(), AllocError> {
    if has_mark(entered.as_slice(), t) {
        return Ok(());
    }
    set_mark(entered, t, true);
    visits.push(Visit::Leave(t))?;
    for next in next_in(nexts, t) {
        visits.push(Visit::Enter(*next))?;
    }
    Ok(())
}

/// Ranks a type and all that it leads to, but for those that lead to a cycle. Each type is entered once.
fn rank_from(
    alloc: Global,
    nexts: &[Items<TypeId>],
    entered: &mut Items<bool>,
    ranks: &mut Items<Option<u64>>,
    t: TypeId,
) -> Result<(), AllocError>
    requires { AreRanks nexts.now ranks.old }
    ensures { OnOk result (AreRanks nexts.now ranks.new) }
{
    let mut visits = Items::new(alloc);
    visits.push(Visit::Enter(t))?;
    for _ in 0..u64::MAX {
        match visits.pop() {
            Some(Visit::Enter(of)) => enter(nexts, entered, &mut visits, of)?,
            Some(Visit::Leave(of)) => rank_type(nexts, ranks, of),
            None => return Ok(()),
        }
    }
    Err(AllocError)
}

/// So many types, none with a rank.
fn unranked(alloc: Global, nexts: &[Items<TypeId>]) -> Result<Items<Option<u64>>, AllocError>
    ensures { IfOk result (λ ranks. ranks ≡ map (λ _. None) nexts.now) }
{
    let mut ranks = Items::new(alloc);
    for _next in nexts {
        ranks.push(None)?;
    }
    Ok(ranks)
}

/// Ranks of all types that lead to no cycle. It goes once over what each leads to.
pub(crate) fn ranks(
    alloc: Global,
    nexts: &[Items<TypeId>],
) -> Result<Items<Option<u64>>, AllocError>
    ensures { IfOk result (λ ranks. AreRanks nexts.now ranks) }
{
    let mut entered = unmarked(alloc, nexts.len())?;
    let mut ranks = unranked(alloc, nexts)?;
    for number in 0..nexts.len() {
        let t = TypeId(number as u64);
        rank_from(alloc, nexts, &mut entered, &mut ranks, t)?;
    }
    Ok(ranks)
}

fn all_ranked(ranks: &[Option<u64>]) -> bool
    ensures { result ≡ list_all is_some ranks.now }
{
    ranks.iter().all(|rank| rank.is_some())
}

/// All types have ranks where no type leads back to itself. Else there is no answer.
pub(crate) fn check_ranked(alloc: Global, nexts: &[Items<TypeId>]) -> Result<(), AllocError>
    ensures { OnOk result (HaveRanks nexts.now) }
{
    let ranks = ranks(alloc, nexts)?;
    if all_ranked(ranks.as_slice()) {
        Ok(())
    } else {
        Err(AllocError)
    }
}
