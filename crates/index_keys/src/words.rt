ghost use Rattle.std.specs.Prelude.{◌≡◌, ◌∷◌, ◌==◌, IfOk, count_by};
ghost use Rattle.std.specs.Ordering.{nat_cmp, is_lt};
ghost use Rattle.std.specs.Cmp.Lexicographic.{slice_cmp};
ghost use Rattle.java_tree.specs.Keys.{category_at, category_byte, field_count, fields_in, is_before, word_of};

use java_tree::{Category, Key};
use std::alloc::{AllocError, Global};
use std::cmp::Ordering;

/// What separates the fields of a key.
const SEPARATOR: u8 = b'/';

/// The byte with which a category's words begin, 1 to 9.
pub fn category_byte(category: Category) -> u8
    ensures { result ≡ category_byte category }
{
    match category {
        Category::PackageDecl => 1,
        Category::TypeDecl => 2,
        Category::SuperRef => 3,
        Category::MethodDecl => 4,
        Category::MethodRef => 5,
        Category::ConstructorDecl => 6,
        Category::ConstructorRef => 7,
        Category::FieldDecl => 8,
        Category::Ref => 9,
    }
}

/// The category whose words begin with this byte, which is one of 1 to 9.
pub fn category_at(byte: u8) -> Category
    ensures { result ≡ category_at byte }
{
    match byte {
        1 => Category::PackageDecl,
        2 => Category::TypeDecl,
        3 => Category::SuperRef,
        4 => Category::MethodDecl,
        5 => Category::MethodRef,
        6 => Category::ConstructorDecl,
        7 => Category::ConstructorRef,
        8 => Category::FieldDecl,
        _ => Category::Ref,
    }
}

fn field_count(category: Category) -> usize
    ensures { result ≡ field_count category }
{
    match category {
        Category::PackageDecl | Category::FieldDecl | Category::Ref => 1,
        Category::MethodDecl
        | Category::MethodRef
        | Category::ConstructorDecl
        | Category::ConstructorRef => 2,
        Category::TypeDecl => 3,
        Category::SuperRef => 4,
    }
}

fn separators(text: &[u8]) -> usize
    ensures { result ≡ count_by (λ b. b == 47) text.now }
{
    text.iter().filter(|b| **b == SEPARATOR).count()
}

/// Whether a text has as many fields as the category's keys have.
pub fn has_fields(category: Category, text: &[u8]) -> bool
    ensures { result ≡ (fields_in text.now == field_count category) }
{
    separators(text) == field_count(category) - 1
}

/// A key's word: its category's byte and its text. Its only error is to be out of memory.
pub fn word_bytes(alloc: Global, key: &Key) -> Result<Vec<u8>, AllocError>
    ensures { IfOk result (λ word. word.items ≡ word_of key.now) }
{
    let mut word = Vec::new(alloc);
    word.push(category_byte(key.category))?;
    word.extend_from_slice(key.text.as_str().as_bytes())?;
    Ok(word)
}

fn order(left: &Key, right: &Key) -> Ordering
    ensures { result ≡ slice_cmp nat_cmp (word_of left.now) (word_of right.now) }
{
    let first = category_byte(left.category).cmp(&category_byte(right.category));
    match first {
        Ordering::Less => Ordering::Less,
        Ordering::Greater => Ordering::Greater,
        Ordering::Equal => left.text.as_str().cmp(right.text.as_str()),
    }
}

/// The order of two keys' words, without making them.
pub fn compare(left: &Key, right: &Key) -> Ordering
    ensures order { result ≡ slice_cmp nat_cmp (word_of left.now) (word_of right.now) }
    ensures before { is_lt result ≡ is_before (word_of left.now) (word_of right.now) }
{
    order(left, right)
}
