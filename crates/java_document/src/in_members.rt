//! The types that are declared in the members of a type (JLS 8.1.5, 9.1.3) and in a unit (JLS 7.6).

ghost use Rattle.std.specs.Prelude.{◌≡◌, map, OnOk};
ghost use Rattle.java_model.specs.Grammar.Pieces.{each};
ghost use Rattle.java_model.specs.Grammar.YieldUnit.{yield_method_body, yield_callee, yield_explicit, yield_constructor, yield_method, yield_member, yield_top};
ghost use Rattle.java_document.specs.Holes.{locals_in, Finds, Keeps};

use crate::finding::find;
use crate::hole::FoundHole;
use crate::in_expressions::{in_exprs, in_primary};
use crate::in_statements::{in_block, in_block_statements, in_variables};
use crate::scope::Scope;
use java_tree::{Block, Callee, Constructor, Explicit, Member, TopLevel, TypePlace};
use std::alloc::AllocError;

#[tactic(auto, using(crate::proofs::InMembers::in_this, crate::proofs::InMembers::in_super, crate::proofs::InMembers::in_outer_super))]
fn in_callee(
    callee: &Callee,
    scope: &Scope<'_>,
    found: &mut Vec<FoundHole>,
) -> Result<(), AllocError>
    ensures { OnOk result (Finds (locals_in scope.now) (yield_callee callee.now) found.old.items found.new.items) }
{
    match callee {
        Callee::This(_) => Ok(()),
        Callee::Super(Some(primary), _) => in_primary(primary, scope, found),
        Callee::Super(None, _) => Ok(()),
    }
}

/// Finds the types of an explicit constructor call (JLS 8.8.5.1).
#[tactic(auto, using(crate::proofs::InMembers::in_no_explicit, crate::proofs::InMembers::in_some_explicit))]
fn in_explicit(
    explicit: &Option<Explicit>,
    scope: &Scope<'_>,
    found: &mut Vec<FoundHole>,
) -> Result<(), AllocError>
    ensures { OnOk result (Finds (locals_in scope.now) (yield_explicit explicit.now) found.old.items found.new.items) }
{
    match explicit {
        Some(x) => {
            in_callee(&x.callee, scope, found)?;
            in_exprs(x.arguments.as_slice(), scope, found)
        }
        None => Ok(()),
    }
}

#[tactic(auto, using(crate::proofs::InMembers::in_constructor))]
fn in_constructor(
    constructor: &Constructor,
    scope: &mut Scope<'_>,
    found: &mut Vec<FoundHole>,
) -> Result<(), AllocError>
    ensures { OnOk result (Keeps (yield_constructor constructor.now) scope.old scope.new found.old.items found.new.items) }
{
    let depth = scope.own.len();
    in_explicit(&constructor.explicit, scope, found)?;
    in_block_statements(constructor.statements.as_slice(), scope, found)?;
    scope.own.truncate(depth);
    Ok(())
}

#[tactic(auto, using(crate::proofs::InMembers::in_no_body, crate::proofs::InMembers::in_some_body))]
fn in_method_body(
    body: &Option<Block>,
    scope: &mut Scope<'_>,
    found: &mut Vec<FoundHole>,
) -> Result<(), AllocError>
    ensures { OnOk result (Keeps (yield_method_body body.now) scope.old scope.new found.old.items found.new.items) }
{
    match body {
        Some(block) => in_block(block, scope, found),
        None => Ok(()),
    }
}

fn in_member(
    member: &Member,
    scope: &mut Scope<'_>,
    found: &mut Vec<FoundHole>,
) -> Result<(), AllocError>
    ensures { OnOk result (Keeps (yield_member member.now) scope.old scope.new found.old.items found.new.items) }
{
    match member {
        Member::Empty => Ok(()),
        Member::Initializer(_, block) => in_block(block, scope, found),
        Member::Type(brace) => find(scope, *brace, TypePlace::Member, &[], found),
        Member::Method(method) => in_method_body(&method.body, scope, found),
        Member::Constructor(constructor) => in_constructor(constructor, scope, found),
        Member::Field(fields) => in_variables(fields.variables.as_slice(), scope, found),
    }
}

/// Finds the types of the members of a type, in their order.
#[tactic(auto, using(crate::proofs::InStatements::keeps_none, crate::proofs::InStatements::keeps_next))]
pub(crate) fn in_members(
    members: &[Member],
    scope: &mut Scope<'_>,
    found: &mut Vec<FoundHole>,
) -> Result<(), AllocError>
    ensures { OnOk result (Keeps (each (map yield_member members.now)) scope.old scope.new found.old.items found.new.items) }
{
    for member in members {
        in_member(member, scope, found)?;
    }
    Ok(())
}

#[tactic(auto, using(crate::proofs::InMembers::in_top_empty, crate::proofs::InMembers::in_top_type))]
fn in_top(top: &TopLevel, scope: &Scope<'_>, found: &mut Vec<FoundHole>) -> Result<(), AllocError>
    ensures { OnOk result (Finds (locals_in scope.now) (yield_top top.now) found.old.items found.new.items) }
{
    match top {
        TopLevel::Type(brace) => find(scope, *brace, TypePlace::TopLevel, &[], found),
        TopLevel::Empty => Ok(()),
    }
}

/// Finds the types that a unit declares itself.
#[tactic(auto, using(crate::proofs::Seeing::finds_none, crate::proofs::Seeing::finds_next))]
pub(crate) fn in_tops(
    tops: &[TopLevel],
    scope: &Scope<'_>,
    found: &mut Vec<FoundHole>,
) -> Result<(), AllocError>
    ensures { OnOk result (Finds (locals_in scope.now) (each (map yield_top tops.now)) found.old.items found.new.items) }
{
    for top in tops {
        in_top(top, scope, found)?;
    }
    Ok(())
}
