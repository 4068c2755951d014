use super::*;
use java_tree::{Category, Key, Text};
use std::cmp::Ordering;
use std::test::Fail;

struct Named;

impl Admit for Named {
    ghost use Rattle.std.specs.Prelude.{false, None};

    ghost admitted = { λ _ _ _. false };

    ghost name = { λ _. None };

    fn admits(&self, _category: Category, _text: &str) -> bool {
        false
    }

    fn exact(&self) -> Option<&str> {
        None
    }
}

#[test]
fn words(rt: HostRuntime) -> Result<(), Fail> {
    let key = Key {
        category: Category::TypeDecl,
        text: Text::from_str(rt.alloc(), "A//c")?,
    };
    let other = Key {
        category: Category::Ref,
        text: key.text.copy(rt.alloc())?,
    };
    let word = word_bytes(rt.alloc(), &key)?;
    assert_eq!(rt; word.as_slice(), b"\x02A//c".as_slice());
    assert_eq!(rt; compare(&key, &other), Ordering::Less);
    assert!(rt; !Named.admits(Category::Ref, "A"));
    Ok(())
}
