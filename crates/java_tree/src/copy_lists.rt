//! Copies of lists of texts and numbers.
ghost use Rattle.std.specs.Prelude.{◌≡◌, IfOk};

use crate::text::Text;
use sqlite_items::Items;
use std::alloc::{AllocError, Global};

pub(crate) fn copy_texts(alloc: Global, texts: &[Text]) -> Result<Items<Text>, AllocError>
    ensures { IfOk result (λ copies. copies ≡ texts.now) }
{
    let mut copies = Vec::with_capacity(alloc, texts.len())?;
    for text in texts {
        copies.push(text.copy(alloc)?)?;
    }
    Ok(Items::from_vec(copies))
}

pub(crate) fn copy_names(
    alloc: Global,
    names: &[Items<Text>],
) -> Result<Items<Items<Text>>, AllocError>
    ensures { IfOk result (λ copies. copies ≡ names.now) }
{
    let mut copies = Vec::with_capacity(alloc, names.len())?;
    for name in names {
        copies.push(copy_texts(alloc, name.as_slice())?)?;
    }
    Ok(Items::from_vec(copies))
}

pub(crate) fn copy_numbers(alloc: Global, numbers: &[u64]) -> Result<Items<u64>, AllocError>
    ensures { IfOk result (λ copies. copies ≡ numbers.now) }
{
    let mut copies = Vec::with_capacity(alloc, numbers.len())?;
    for number in numbers {
        copies.push(*number)?;
    }
    Ok(Items::from_vec(copies))
}
