//! Statements and types within each other: the knot of their parsers, tied on the depth that is left.

ghost use Rattle.std.specs.Prelude.{◌≤◌};
ghost use Rattle.java_tree.specs.declared.limits.TheConstants.{MAX_DEPTH};
ghost use Rattle.java_unit_reading.specs.Gives.{Gives};
ghost use Rattle.java_parse_stmt.specs.Knot.{inside};

use crate::members::{Members, head};
use java_parse_stmt::Grammar;
use java_tree::{Stmt, TypeDecl, TypePlace};
use java_unit_reading::{Reader, UnitFault};
use std::alloc::Global;

/// A statement, with so much of the depth left outside it (JLS 14.5).
#[cycle(nested)]
fn stmt(
    alloc: Global,
    reader: &mut Reader<'_>,
    within: Option<u64>,
    depth: usize,
) -> Result<Stmt, UnitFault>
    requires { depth ≤ MAX_DEPTH }
    ensures { Gives ((inside depth).stmt within reader.old) result reader.new }
{
    if depth == 0 {
        return Err(UnitFault::NoTree);
    }
    Grammar {
        alloc,
        depth: depth - 1,
        within,
        stmt,
        type_decl,
    }
    .stmt_over(reader)
}

/// A type in a place, with so much of the depth left outside it (JLS 8, 9), by the offset of its `{`.
#[cycle(nested)]
#[tactic(auto, using(crate::proofs::DepthLaws::none_left, crate::proofs::DepthLaws::too_much, crate::proofs::DepthLaws::some_left, crate::proofs::DepthLaws::type_parts, crate::proofs::DepthLaws::no_head, crate::proofs::DepthLaws::no_brace, crate::proofs::DepthLaws::no_members))]
pub(crate) fn type_decl(
    alloc: Global,
    reader: &mut Reader<'_>,
    left: usize,
    place: TypePlace,
    within: Option<u64>,
    depth: usize,
) -> Result<u32, UnitFault>
    requires { depth ≤ MAX_DEPTH }
    ensures { Gives ((inside depth).type left place within reader.old) result reader.new }
{
    if left == 0 || left > depth {
        return Err(UnitFault::NoTree);
    }
    let head = head(alloc, reader, place)?;
    let brace = reader.brace()?;
    let number = reader.begin_type(alloc)?;
    let nested = Grammar {
        alloc,
        depth: left - 1,
        within: Some(number),
        stmt,
        type_decl,
    };
    let members = Members { nested }.members(reader, &head)?;
    let of = TypeDecl {
        parent: within,
        place,
        head,
        brace,
        members,
    };
    reader.finish_type(number, of);
    Ok(brace)
}
