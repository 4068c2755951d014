//! What is in scope at a place.

ghost use Rattle.std.specs.Prelude.{◌≡◌, ◌-◌, ◌<◌, [], ◌∷◌, ◌++◌, length, take, OnOk};

use crate::bounds::{is_around, is_body, is_variable, key_of, name_key};
use crate::entry::Entry;
use crate::table::{forget, last_of, note, take_off};
use indexmap::IndexMap;
use java_tree::{Bound, Items};
use std::alloc::{AllocError, Global};
use std::marker::Model;

/// What is in scope at a place, outermost first (JLS 6.3). A variable is found by its name, and the types around it
/// are found with no look at variables.
#[derive(Debug, Drop)]
pub struct Scope {
    entries: Items<Entry>,
    last: IndexMap<u64, u64>,
}

impl Model for Scope {
    ghost use Rattle.std.specs.Prelude.{List, map, nat_eq};
    ghost use Rattle.indexmap.specs.IndexMap.{get};
    ghost use Rattle.java_tree.specs.declared.bound.Bound.{Bound};
    ghost use Rattle.java_scope.specs.Linked.{bound_in, AreLinked};

    ghost Value = { List Bound };

    ghost view = { λ s. map bound_in s.entries };

    ghost invariant = { λ s. AreLinked s.entries (get nat_eq s.last) };
}

impl Scope {
    ghost use Rattle.java_scope.specs.Linked.{is_around, is_body, is_variable, name_key, has_key, IsLast, IsLinked, Skips};

    /// Nothing is in scope.
    pub fn new(alloc: Global) -> Scope
        ensures { result ≡ [] }
    {
        Scope {
            entries: Items::new(alloc),
            last: IndexMap::new(alloc),
        }
    }

    /// How much is in scope.
    pub fn len(&self) -> usize
        ensures { result ≡ length self.now }
    {
        self.entries.len()
    }

    /// The bound at a place, with its links.
    pub(crate) fn linked(&self, place: u64) -> &Entry
        requires { place < length self.now }
        ensures { IsLinked self.now place result.now }
    {
        &self.entries.as_slice()[place as usize]
    }

    /// The place of the members of the innermost type around.
    pub(crate) fn body(&self) -> Option<u64>
        ensures { Skips is_body self.now (length self.now) result }
    {
        let Some(place) = self.entries.len().checked_sub(1) else {
            return None;
        };
        let entry = self.linked(place as u64);
        if is_body(&entry.bound) {
            Some(place as u64)
        } else {
            entry.body
        }
    }

    /// The place of the innermost bound that is no variable.
    pub(crate) fn around(&self) -> Option<u64>
        ensures { Skips is_around self.now (length self.now) result }
    {
        let Some(place) = self.entries.len().checked_sub(1) else {
            return None;
        };
        let entry = self.linked(place as u64);
        if is_around(&entry.bound) {
            Some(place as u64)
        } else {
            entry.outer
        }
    }

    /// The place of the innermost variable whose name has this key.
    fn last(&self, key: u64) -> Option<u64>
        ensures { IsLast (has_key key) self.now (length self.now) result }
    {
        last_of(&self.last, Some(key))
    }

    /// The place of the innermost variable of this name. It goes to the variables whose names have its key.
    pub(crate) fn variable(&self, name: &str) -> Option<u64>
        ensures { IsLast (is_variable name.now) self.now (length self.now) result }
    {
        let mut next = self.last(name_key(name));
        while let Some(place) = next {
            let entry = self.linked(place);
            if is_variable(name, &entry.bound) {
                return Some(place);
            }
            next = entry.before;
        }
        None
    }

    /// Brings one thing more into scope.
    pub fn push(&mut self, bound: Bound) -> Result<(), AllocError>
        ensures { OnOk result (self.new ≡ self.old ++ bound ∷ []) }
    {
        let key = key_of(&bound);
        let entry = Entry {
            bound,
            before: last_of(&self.last, key),
            body: self.body(),
            outer: self.around(),
        };
        let place = self.entries.len() as u64;
        self.entries.push(entry)?;
        match note(&mut self.last, key, place) {
            Ok(()) => Ok(()),
            Err(_) => {
                take_off(&mut self.entries);
                Err(AllocError)
            }
        }
    }

    /// Leaves what came into scope last.
    fn pop(&mut self)
        ensures { self.new ≡ take (length self.old - 1) self.old }
    {
        let popped = self.entries.pop();
        forget(&mut self.last, popped);
    }

    /// Leaves what came into scope after the first `len`.
    #[tactic(auto, using(crate::proofs::Linking::cut_less, crate::proofs::Linking::cut_smaller, crate::proofs::Linking::cut_all))]
    pub fn cut(&mut self, len: usize)
        ensures { self.new ≡ take len self.old }
    {
        while self.len() > len {
            self.pop();
        }
    }
}
