//! Members in the order of their types and places.

ghost use Rattle.std.specs.Prelude.{◌≡◌, IfOk, OnOk, Contains};
ghost use Rattle.std.specs.List.Sorted.{IsStrictlySortedBy};
ghost use Rattle.java_members.specs.Members.{Rising, Same};

use crate::member::Member;
use java_tree::Items;
use std::alloc::{AllocError, Global};

/// Each member once, in order.
fn sort_once(members: &mut Vec<Member>)
    ensures rising { Rising members.new.items }
    ensures same { Same members.new.items members.old.items }
{
    members.sort_unstable();
    members.dedup();
}

/// Each member once, in order.
pub fn in_order(alloc: Global, members: &[Member]) -> Result<Items<Member>, AllocError>
    ensures rising { IfOk result (λ ms. Rising ms) }
    ensures same { IfOk result (λ ms. Same ms members.now) }
{
    let mut sorted = Vec::from_slice(alloc, members)?;
    sort_once(&mut sorted);
    Ok(Items::from_vec(sorted))
}
