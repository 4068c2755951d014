//! Answers that are kept.

ghost use Rattle.std.specs.Prelude.{◌≡◌, [], ◌==◌, ◌&&◌, bytes_eq, IfSome};
ghost use Rattle.java_model.specs.Names.Environments.{Env as AnEnv, same_id};
ghost use Rattle.java_supers.specs.Keeping.{has_mark, suits, AreKept, IsAnswer, IsFound};

use crate::marks::suits;
use indexmap::IndexMap;
use java_tree::{Items, Text, TypeId};
use java_types::member_key;
use std::alloc::{AllocError, Global};

/// Member types that a type has, and for which types in hand: none of the free ones, and each of the blocked ones.
#[derive(Debug, Drop)]
pub struct Answer {
    pub found: Items<TypeId>,
    pub free: Items<TypeId>,
    pub blocked: Items<TypeId>,
}

/// An answer about the member types of a type by this name, and the number of the answer before it with its key.
#[derive(Debug, Drop)]
pub struct Kept {
    pub of: TypeId,
    pub name: Text,
    pub answer: Answer,
    pub before: Option<u64>,
}

/// All answers, and the number of the last of each key.
#[derive(Debug, Drop)]
pub struct Memory {
    pub kept: Items<Kept>,
    pub last: IndexMap<u64, u64>,
}

fn is_about(kept: &Kept, t: TypeId, name: &str) -> bool
    ensures { result ≡ (same_id kept.now.of t && bytes_eq kept.now.name name.now) }
{
    kept.of.0 == t.0 && kept.name.as_str() == name
}

/// Whether an answer is one to this question with these types in hand.
fn is_answer(kept: &Kept, marks: &[bool], t: TypeId, name: &str) -> bool
    ensures { result ≡ (same_id kept.now.of t && bytes_eq kept.now.name name.now && suits kept.now.answer.free kept.now.answer.blocked (has_mark marks.now)) }
{
    let answer = &kept.answer;
    is_about(kept, t, name) && suits(answer.free.as_slice(), answer.blocked.as_slice(), marks)
}

impl Memory {
    /// No answers.
    pub(crate) fn new(alloc: Global) -> Memory
        ensures { result.kept ≡ [] }
    {
        Memory {
            kept: Items::new(alloc),
            last: IndexMap::new(alloc),
        }
    }

    fn last(&self, key: u64) -> Option<u64> {
        self.last.get(&key).copied()
    }

    /// A kept answer to a question. It goes to the answers that have the hash of the question.
    pub(crate) fn find(&self, marks: &[bool], t: TypeId, name: &str) -> Option<&Kept>
        ensures { IfSome result (λ k. IsFound self.now.kept marks.now t name.now k.now) }
    {
        let mut next = self.last(member_key(t, name));
        for _ in 0..self.kept.len() {
            let Some(number) = next else {
                return None;
            };
            let Some(kept) = self.kept.get(number as usize) else {
                return None;
            };
            if is_answer(kept, marks, t, name) {
                return Some(kept);
            }
            next = kept.before;
        }
        None
    }

    /// Keeps an answer.
    pub(crate) fn add(&mut self, of: TypeId, name: Text, answer: Answer) -> Result<(), AllocError>
        ensures { (e : AnEnv) → AreKept e self.old.kept → IsAnswer e of name answer.found answer.free answer.blocked → AreKept e self.new.kept }
    {
        let key = member_key(of, name.as_str());
        let before = self.last(key);
        let number = self.kept.len() as u64;
        self.kept.push(Kept {
            of,
            name,
            answer,
            before,
        })?;
        self.last.insert(key, number)?;
        Ok(())
    }
}
