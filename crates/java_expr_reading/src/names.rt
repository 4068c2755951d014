//! Names and types.

ghost use Rattle.std.specs.Prelude.{◌≡◌, ◌∷◌, [], IfOk};
ghost use Rattle.java_expr_reading.specs.Input.{Gives, many};
ghost use Rattle.java_expr_reading.specs.Reading.Names as spec;

use crate::cursor::Cursor;
use crate::fault::ExprFault;
use crate::operators::primitive_of;
use crate::shape::Shape;
use java_tree::{ElementType, Ident, Items, Mark, Name, TypeUse};
use std::alloc::{AllocError, Global};

/// A list of one item.
pub fn only<T: Drop>(alloc: Global, item: T) -> Result<Items<T>, AllocError>
    ensures { IfOk result (λ all. all ≡ item ∷ []) }
{
    let mut all = Vec::with_capacity(alloc, 1)?;
    all.push(item)?;
    Ok(Items::from_vec(all))
}

/// Whether `.` and an identifier come next.
#[tactic(auto, unfolding(crate::specs::Reading::Names::sees_member))]
pub fn sees_member(cursor: &Cursor<'_>) -> bool
    ensures { result ≡ spec.sees_member cursor.now }
{
    cursor.sees(Mark::Dot) && cursor.second().is_word()
}

#[tactic(auto, using(crate::proofs::Seen::member_some), unfolding(crate::specs::Reading::Names::dotted_ident))]
fn dotted_ident(alloc: Global, cursor: &mut Cursor<'_>) -> Result<Option<Ident>, ExprFault>
    ensures { Gives (spec.dotted_ident cursor.old) result cursor.new }
{
    if sees_member(cursor) {
        cursor.take();
        Ok(Some(cursor.ident(alloc)?))
    } else {
        Ok(None)
    }
}

/// The identifiers that follow, each after a dot, behind those that were found.
fn dotted_idents(alloc: Global, cursor: &mut Cursor<'_>, mut found: Name) -> Result<Name, ExprFault>
    ensures { Gives (many spec.dotted_ident found cursor.old) result cursor.new }
{
    for _turn in 0..cursor.turns() {
        match dotted_ident(alloc, cursor)? {
            Some(ident) => found.push(ident)?,
            None => return Ok(found),
        }
    }
    Err(ExprFault::NoExpr)
}

/// A name, with as many identifiers as there are (JLS 6.2).
#[tactic(auto, unfolding(crate::specs::Reading::Names::name))]
pub fn name(alloc: Global, cursor: &mut Cursor<'_>) -> Result<Name, ExprFault>
    ensures { Gives (spec.name cursor.old) result cursor.new }
{
    let first = cursor.ident(alloc)?;
    let found = only(alloc, first)?;
    dotted_idents(alloc, cursor, found)
}

/// Whether `[` and `]` come next.
#[tactic(auto, unfolding(crate::specs::Reading::Names::sees_dim))]
pub fn sees_dim(cursor: &Cursor<'_>) -> bool
    ensures { result ≡ spec.sees_dim cursor.now }
{
    cursor.sees(Mark::LeftBracket) && cursor.second_is(Mark::RightBracket)
}

/// The number of `[]` that come next (JLS 10.1).
#[tactic(auto, using(crate::proofs::Seen::dim_some, crate::proofs::Seen::dim_second))]
pub fn dims(cursor: &mut Cursor<'_>) -> Result<u32, ExprFault>
    ensures { Gives (spec.dims cursor.old) result cursor.new }
{
    let mut found = 0u32;
    for _turn in 0..cursor.turns() {
        if !sees_dim(cursor) {
            return Ok(found);
        }
        cursor.take();
        cursor.take();
        match found.checked_add(1) {
            Some(more) => found = more,
            None => return Err(ExprFault::NoMemory),
        }
    }
    Err(ExprFault::NoExpr)
}

/// A primitive type or a name (JLS 4.2, 6.2).
#[tactic(auto, unfolding(crate::specs::Reading::Names::element))]
pub fn element(alloc: Global, cursor: &mut Cursor<'_>) -> Result<ElementType, ExprFault>
    ensures { Gives (spec.element cursor.old) result cursor.new }
{
    match cursor.shape() {
        Shape::Word => Ok(ElementType::Named(name(alloc, cursor)?)),
        Shape::Mark(mark) => match primitive_of(mark) {
            Some(primitive) => {
                cursor.take();
                Ok(ElementType::Primitive(primitive))
            }
            None => Err(ExprFault::NoExpr),
        },
        _ => Err(ExprFault::NoExpr),
    }
}

/// A type (JLS 4.1).
#[tactic(auto, unfolding(crate::specs::Reading::Names::type_use))]
pub fn type_use(alloc: Global, cursor: &mut Cursor<'_>) -> Result<TypeUse, ExprFault>
    ensures { Gives (spec.type_use cursor.old) result cursor.new }
{
    let element = element(alloc, cursor)?;
    let dims = dims(cursor)?;
    Ok(TypeUse { element, dims })
}
