//! What lies directly inside a type (JLS 8.1, 9.1) and a unit (JLS 7.3).

ghost use Rattle.std.specs.Prelude.{◌≡◌, [], ◌∷◌, ◌++◌, map, slice_get};
ghost use Rattle.std.specs.List.{flat_map};
ghost use Rattle.std.specs.Option.{option_map, option_to_list};
ghost use Rattle.java_model.specs.Tree.Nodes.{supertype, body, imported};
ghost use Rattle.java_model.specs.Tree.Children.{header_names, in_declaration, in_body, top_level, in_unit};
ghost use Rattle.java_nodes.specs.Seen.{seen, seen_type};

use crate::laying::single;
use crate::lists::{declarations, imports, members, supertypes};
use crate::node::Node;
use crate::numbered_type::NumberedType;
use crate::root::Root;
use java_tree::{ClassHead, Items, Name, TypeHead};

/// Names in the header of a type, and its body.
#[tactic(auto, using(crate::proofs::InTurn::within, crate::proofs::InTurn::beyond))]
fn in_names<'a>(number: u64, names: &'a Items<Name>, brace: u32, at: usize) -> Option<Node<'a>>
    ensures { option_map seen result ≡ slice_get (map (supertype number) names.now ++ body brace ∷ []) at }
{
    let before = names.len();
    if at < before {
        supertypes(number, names, at)
    } else {
        single(Node::Body(brace), at - before)
    }
}

/// The names after `extends` and `implements` of a class, and its body (JLS 8.1).
fn in_class<'a>(number: u64, head: &'a ClassHead, brace: u32, at: usize) -> Option<Node<'a>>
    ensures { option_map seen result ≡ slice_get (map (supertype number) (option_to_list head.now.extends ++ head.now.implements) ++ body brace ∷ []) at }
{
    match &head.extends {
        Some(n) => match at {
            0 => Some(Node::Supertype(number, n)),
            _ => in_names(number, &head.implements, brace, at - 1),
        },
        None => in_names(number, &head.implements, brace, at),
    }
}

/// The names in the header of a type, and its body (JLS 8.1, 9.1).
fn in_head<'a>(number: u64, head: &'a TypeHead, brace: u32, at: usize) -> Option<Node<'a>>
    ensures { option_map seen result ≡ slice_get (map (supertype number) (header_names head.now) ++ body brace ∷ []) at }
{
    match head {
        TypeHead::Class(c) => in_class(number, c, brace, at),
        TypeHead::Interface(i) => in_names(number, &i.extends, brace, at),
        TypeHead::Anonymous => single(Node::Body(brace), at),
    }
}

/// What lies directly inside a declaration of a type.
pub(crate) fn in_declaration<'a>(
    brace: u32,
    declared: Option<NumberedType<'a>>,
    at: usize,
) -> Option<Node<'a>>
    ensures { option_map seen result ≡ slice_get (in_declaration brace (option_map seen_type declared.entry)) at }
{
    match declared {
        Some(t) => in_head(t.number, &t.declared.head, brace, at),
        None => None,
    }
}

/// The members of a type.
pub(crate) fn in_body<'a>(declared: Option<NumberedType<'a>>, at: usize) -> Option<Node<'a>>
    ensures { option_map seen result ≡ slice_get (in_body (option_map seen_type declared.entry)) at }
{
    match declared {
        Some(t) => members(t.number, &t.declared.members, at),
        None => None,
    }
}

/// The top-level types of a unit (JLS 7.6).
#[tactic(auto, using(crate::proofs::Tops::top_declarations))]
fn in_tops<'a>(root: Root<'a>, at: usize) -> Option<Node<'a>>
    ensures { option_map seen result ≡ slice_get (flat_map top_level root.entry.unit.now.declarations) at }
{
    declarations(root.holes, at)
}

/// The imports of a unit, and its top-level types.
#[tactic(auto, using(crate::proofs::InTurn::within, crate::proofs::InTurn::beyond))]
fn in_imports<'a>(root: Root<'a>, at: usize) -> Option<Node<'a>>
    ensures { option_map seen result ≡ slice_get (map imported root.entry.unit.now.imports ++ flat_map top_level root.entry.unit.now.declarations) at }
{
    let before = root.unit.imports.len();
    if at < before {
        imports(&root.unit.imports, at)
    } else {
        in_tops(root, at - before)
    }
}

/// What lies directly inside a unit (JLS 7.3).
pub(crate) fn in_unit<'a>(root: Root<'a>, at: usize) -> Option<Node<'a>>
    ensures { option_map seen result ≡ slice_get (in_unit root.entry.unit.now) at }
{
    match &root.unit.package {
        Some(n) => match at {
            0 => Some(Node::PackageClause(n)),
            _ => in_imports(root, at - 1),
        },
        None => in_imports(root, at),
    }
}
