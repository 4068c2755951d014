//! The numbers of types.

ghost use Rattle.std.specs.Prelude.{◌≡◌, [], ◌++◌, IfOk, OnOk};
ghost use Rattle.java_model.specs.Grammar.Braces.{braces_of};
ghost use Rattle.java_model.specs.Outlines.{put_number};
ghost use Rattle.java_document.specs.Outlining.{Rises, number_in, numbers_in, local_numbers};

use java_tree::{Items, TypeDecl, TypePlace};
use std::alloc::{AllocError, Global};

/// The offsets of the `{` of types.
pub(crate) fn braces_of(alloc: Global, types: &[TypeDecl]) -> Result<Vec<u32>, AllocError>
    ensures { IfOk result (λ bs. bs.items ≡ braces_of types.now) }
{
    let mut braces = Vec::new(alloc);
    for declared in types {
        braces.push(declared.brace)?;
    }
    Ok(braces)
}

/// The number of the type with this `{`, by a binary search.
fn number_in(braces: &[u32], brace: u32) -> Option<u64>
    requires { Rises braces.now }
    ensures { result ≡ number_in braces.now brace }
{
    match braces.binary_search(&brace) {
        Ok(number) => Some(number as u64),
        Err(_) => None,
    }
}

fn push_number(braces: &[u32], brace: u32, numbers: &mut Items<u64>) -> Result<(), AllocError>
    requires { Rises braces.now }
    ensures { OnOk result (numbers.new ≡ numbers.old ++ put_number (number_in braces.now brace) []) }
{
    match number_in(braces, brace) {
        Some(number) => {
            numbers.push(number)?;
            Ok(())
        }
        None => Ok(()),
    }
}

fn numbers_in(alloc: Global, braces: &[u32], locals: &[u32]) -> Result<Items<u64>, AllocError>
    requires { Rises braces.now }
    ensures { IfOk result (λ ns. ns ≡ numbers_in braces.now locals.now) }
{
    let mut numbers = Items::new(alloc);
    for brace in locals {
        push_number(braces, *brace, &mut numbers)?;
    }
    Ok(numbers)
}

/// The numbers of the local classes in scope at the header of a local or anonymous class (JLS 14.3).
pub(crate) fn local_numbers(
    alloc: Global,
    braces: &[u32],
    place: TypePlace,
    locals: &[u32],
) -> Result<Items<u64>, AllocError>
    requires { Rises braces.now }
    ensures { IfOk result (λ ns. ns ≡ local_numbers braces.now place locals.now) }
{
    match place {
        TypePlace::Local => numbers_in(alloc, braces, locals),
        TypePlace::Anonymous => numbers_in(alloc, braces, locals),
        TypePlace::TopLevel => Ok(Items::new(alloc)),
        TypePlace::Member => Ok(Items::new(alloc)),
    }
}
