//! Holes as they are found.

ghost use Rattle.std.specs.Prelude.{◌≡◌, [], ◌∷◌, ◌++◌, map, IfOk, OnOk};
ghost use Rattle.java_model.specs.Grammar.Forms.{last_or};
ghost use Rattle.java_model.specs.Grammar.Pieces.{hole};
ghost use Rattle.java_model.specs.Outlines.{spelled_name, no_span};
ghost use Rattle.java_document.specs.Holes.{locals_in, Finds};

use crate::hole::FoundHole;
use crate::scope::Scope;
use java_tree::{Ident, Items, Span, Text, TypePlace};
use std::alloc::{AllocError, Global};

/// The identifiers of a name (JLS 6.2).
pub(crate) fn spelled_name(alloc: Global, name: &[Ident]) -> Result<Items<Text>, AllocError>
    ensures { IfOk result (λ n. n ≡ spelled_name name.now) }
{
    let mut copies = Items::new(alloc);
    for ident in name {
        copies.push(ident.name.copy(alloc)?)?;
    }
    Ok(copies)
}

/// The span of the last identifier of a name.
#[tactic(auto, using(crate::proofs::Lists::last_span_more))]
fn last_span(name: &[Ident]) -> Span
    ensures { result ≡ last_or no_span (map (λ i. i.span) name.now) }
{
    let mut span = Span { start: 0, end: 0 };
    for ident in name {
        span = ident.span;
    }
    span
}

/// The local classes in scope, innermost first.
#[tactic(auto, using(crate::proofs::Lists::reverse_drop_more, crate::proofs::Lists::reverse_drop_none, crate::proofs::Lists::reverse_drop_all))]
fn locals_in(scope: &Scope<'_>) -> Result<Items<u32>, AllocError>
    ensures { IfOk result (λ locals. locals ≡ locals_in scope.now) }
{
    let mut locals = Items::new(scope.alloc);
    let len = scope.own.len();
    for i in 0..len {
        locals.push(scope.own[len - 1 - i])?;
    }
    for brace in scope.base {
        locals.push(*brace)?;
    }
    Ok(locals)
}

/// Adds a type where it is declared.
pub(crate) fn find(
    scope: &Scope<'_>,
    brace: u32,
    place: TypePlace,
    created: &[Ident],
    found: &mut Vec<FoundHole>,
) -> Result<(), AllocError>
    ensures { OnOk result (Finds (locals_in scope.now) (λ a. hole (record { brace = brace; place = place; created = created.now; around = a }) ∷ []) found.old.items found.new.items) }
{
    let name = spelled_name(scope.alloc, created)?;
    let locals = locals_in(scope)?;
    found.push(FoundHole {
        brace,
        place,
        created: name,
        span: last_span(created),
        locals,
    })?;
    Ok(())
}
