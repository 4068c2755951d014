//! The members of the types that were asked so far.

ghost use Rattle.std.specs.Prelude.{◌≡◌, [], List, IfSome, OnOk};
ghost use Rattle.java_tree.specs.declared.occurrence.TypeId.{TypeId as AnId};
ghost use Rattle.java_members.specs.Inheriting.{AreOf};
ghost use Rattle.java_members.specs.Members.{Same};
ghost use Rattle.java_members.specs.declared.member.Member.{Member as AMember};

use crate::member::Member;
use indexmap::IndexMap;
use java_tree::{Items, TypeId};
use std::alloc::{AllocError, Global};

/// How many answers are gone through where one is sought. More are looked up by their places.
const FEW: usize = 16;

/// The members that a type has.
#[derive(Debug, Drop)]
pub struct Answer {
    pub of: TypeId,
    pub members: Items<Member>,
}

/// All answers, and the place of each by its type, if there are more than a few.
#[derive(Debug, Drop)]
pub struct Answers {
    pub answers: Items<Answer>,
    pub places: IndexMap<u64, u64>,
}

impl Answers {
    /// No answers.
    pub(crate) fn new(alloc: Global) -> Answers
        ensures { result.answers ≡ [] }
    {
        Answers {
            answers: Items::new(alloc),
            places: IndexMap::new(alloc),
        }
    }

    fn place(&self, t: TypeId) -> Option<u64> {
        let answers = self.answers.as_slice();
        if answers.len() > FEW {
            return self.places.get(&t.0).copied();
        }
        for place in 0..answers.len() {
            if answers[place].of.0 == t.0 {
                return Some(place as u64);
            }
        }
        None
    }

    /// Notes the places of the answers from one on.
    fn note_places(&mut self, from: usize) -> Result<(), AllocError>
        ensures { self.new.answers ≡ self.old.answers }
    {
        for place in from..self.answers.len() {
            let of = self.answers.as_slice()[place].of.0;
            self.places.insert(of, place as u64)?;
        }
        Ok(())
    }

    /// The members of a type, if it was asked.
    pub(crate) fn find(&self, t: TypeId) -> Option<&Items<Member>>
        ensures { (all : AnId → List AMember) → AreOf all self.now.answers → IfSome result (λ ms. Same ms.now (all t)) }
    {
        let place = self.place(t)?;
        let answer = self.answers.get(place as usize)?;
        if answer.of.0 == t.0 {
            Some(&answer.members)
        } else {
            None
        }
    }

    /// Keeps the members of a type.
    pub(crate) fn add(&mut self, t: TypeId, members: Items<Member>) -> Result<(), AllocError>
        ensures { (all : AnId → List AMember) → AreOf all self.old.answers → Same members (all t) → OnOk result (AreOf all self.new.answers) }
    {
        let place = self.answers.len();
        self.answers.push(Answer { of: t, members })?;
        if place < FEW {
            return Ok(());
        }
        let from = if place == FEW { 0 } else { place };
        self.note_places(from)
    }
}
