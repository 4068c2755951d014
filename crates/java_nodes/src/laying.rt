//! One to three nodes by number.

ghost use Rattle.std.specs.Prelude.{◌≡◌, [], ◌∷◌, slice_get};
ghost use Rattle.std.specs.Option.{option_map};
ghost use Rattle.java_nodes.specs.Seen.{seen};

use crate::node::Node;

pub(crate) fn single<'a>(node: Node<'a>, at: usize) -> Option<Node<'a>>
    ensures { option_map seen result ≡ slice_get (seen node.entry ∷ []) at }
{
    match at {
        0 => Some(node),
        _ => None,
    }
}

pub(crate) fn pair<'a>(first: Node<'a>, second: Node<'a>, at: usize) -> Option<Node<'a>>
    ensures { option_map seen result ≡ slice_get (seen first.entry ∷ seen second.entry ∷ []) at }
{
    match at {
        0 => Some(first),
        1 => Some(second),
        _ => None,
    }
}

pub(crate) fn triple<'a>(
    first: Node<'a>,
    second: Node<'a>,
    third: Node<'a>,
    at: usize,
) -> Option<Node<'a>>
    ensures { option_map seen result ≡ slice_get (seen first.entry ∷ seen second.entry ∷ seen third.entry ∷ []) at }
{
    match at {
        0 => Some(first),
        1 => Some(second),
        2 => Some(third),
        _ => None,
    }
}
