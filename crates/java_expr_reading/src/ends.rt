ghost use Rattle.std.specs.Prelude.{◌≡◌, ◌≤◌, ◌<◌, ◌^◌, ◌+◌, ℕ, suc, List, map, length, slice_index, IfOk};
ghost use Rattle.java_model.specs.Grammar.Signs.{Sign};
ghost use Rattle.java_expr_reading.specs.Shapes.{shape_of};
ghost use Rattle.java_expr_reading.specs.Marking.{Closes, end_from, AreEndsFrom};

use crate::shape::Shape;
use java_tree::Mark;
use std::alloc::{AllocError, Global};

/// Where a body ends that begins before a place, from the ends of those that begin behind it.
fn end_from(shape: Shape, at: usize, ends: &[usize]) -> usize
    requires some { at + 1 < length ends.now }
    requires within { slice_index ends.now (at + 1) < length ends.now }
    ensures { result ≡ end_from shape at ends.now }
{
    match shape {
        Shape::Mark(Mark::RightBrace) => at + 1,
        Shape::LeftBrace => ends[ends[at + 1]],
        _ => ends[at + 1],
    }
}

/// Where a body ends that begins before each place, in one pass from the end.
pub(crate) fn ends_of(alloc: Global, shapes: &[Shape]) -> Result<Vec<usize>, AllocError>
    requires { length shapes.now < 2 ^ 32 }
    ensures len { IfOk result (λ ends. length ends.items ≡ suc (length shapes.now)) }
    ensures closes { IfOk result (λ ends. (ts : List Sign) → map shape_of ts ≡ shapes.now → AreEndsFrom ts 0 ends.items) }
{
    let len = shapes.len();
    let mut ends = Vec::from_elem(alloc, len, len + 1)?;
    for at in (0..len).rev() {
        let end = end_from(shapes[at], at, ends.as_slice());
        ends[at] = end;
    }
    Ok(ends)
}
