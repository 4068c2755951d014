//! Which types are in hand.

ghost use Rattle.std.specs.Prelude.{◌≡◌, not, slice_set};
ghost use Rattle.std.specs.List.{list_all};
ghost use Rattle.java_supers.specs.Keeping.{has_mark, suits};

use java_tree::{Items, TypeId};

pub(crate) fn has_mark(marks: &[bool], t: TypeId) -> bool
    ensures { result ≡ has_mark marks.now t }
{
    match marks.get(t.0 as usize) {
        Some(mark) => *mark,
        None => false,
    }
}

/// Marks a type, or takes its mark away.
pub(crate) fn set_mark(marks: &mut Items<bool>, t: TypeId, mark: bool)
    ensures { marks.new ≡ slice_set marks.old t.0 mark }
{
    if t.0 < marks.len() as u64 {
        marks.set(t.0 as usize, mark);
    }
}

fn none_marked(types: &[TypeId], marks: &[bool]) -> bool
    ensures { result ≡ list_all (λ t. not (has_mark marks.now t)) types.now }
{
    types.iter().all(|t| !has_mark(marks, *t))
}

fn all_marked(types: &[TypeId], marks: &[bool]) -> bool
    ensures { result ≡ list_all (has_mark marks.now) types.now }
{
    types.iter().all(|t| has_mark(marks, *t))
}

/// Whether none of the first types is marked, and each of the second is.
pub(crate) fn suits(free: &[TypeId], blocked: &[TypeId], marks: &[bool]) -> bool
    ensures { result ≡ suits free.now blocked.now (has_mark marks.now) }
{
    none_marked(free, marks) && all_marked(blocked, marks)
}

/// Takes all marks away.
pub(crate) fn clear_marks(marks: &mut Items<bool>) {
    for at in 0..marks.len() {
        set_mark(marks, TypeId(at as u64), false);
    }
}
