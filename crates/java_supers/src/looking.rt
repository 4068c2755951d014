//! An asker that answers from what is declared, in hand or kept, and notes what its answers rest on.

ghost use Rattle.std.specs.Prelude.{◌≡◌, ◌&&◌, [], ◌∷◌, Bool, true, IfOk, OnOk};
ghost use Rattle.std.specs.List.{list_all};
ghost use Rattle.java_tree.specs.declared.occurrence.TypeId.{TypeId as AnId};
ghost use Rattle.java_model.specs.Names.Supertypes.{declared_types};
ghost use Rattle.java_model.specs.Names.TypeNames.{Ask};
ghost use Rattle.java_supers.specs.Keeping.{has_mark, is_at, list_grows, without, AreKept, FitsLook, Noted};
ghost use Rattle.java_resolve.specs.Occasions.{Occasion};

use crate::marks::has_mark;
use crate::memory::Memory;
use java_resolve::{AskFault, Asks, is_among, only_if};
use java_tree::{Items, Text, TypeId};
use java_types::DeclaredTypes;
use std::alloc::{AllocError, Global};
use std::marker::Model;

/// What asks for a type that is in hand.
#[derive(Drop)]
pub(crate) struct Looking<'a> {
    env: &'a DeclaredTypes,
    memory: &'a Memory,
    marks: &'a [bool],
    of: TypeId,
    free: Items<TypeId>,
    blocked: Items<TypeId>,
}

impl<'a> Model for Looking<'a> {
    ghost use Rattle.std.specs.Prelude.{◌≡◌, true};
    ghost use Rattle.java_supers.specs.Keeping.{Look, AreKept, has_mark};

    ghost Value = { Look };

    ghost view = { λ l. record { env = l.env.now; of = l.of; free = l.free; blocked = l.blocked } };

    ghost invariant = { λ l. AreKept l.env.now l.memory.now.kept × (has_mark l.marks.now l.of ≡ true) };
}

/// Adds a type that isn't there.
fn add_one(types: &mut Items<TypeId>, t: TypeId) -> Result<(), AllocError>
    ensures ok { OnOk result ((p : AnId → Bool) → list_all p types.new ≡ (list_all p types.old && p t)) }
    ensures grows { list_grows types.old types.new }
{
    if is_among(t, types.as_slice()) {
        return Ok(());
    }
    types.push(t)
}

/// Adds the types that aren't there. Each is compared with those that are.
fn add_all(types: &mut Items<TypeId>, more: &[TypeId]) -> Result<(), AllocError>
    ensures ok { OnOk result ((p : AnId → Bool) → list_all p types.new ≡ (list_all p types.old && list_all p more.now)) }
    ensures grows { list_grows types.old types.new }
{
    for t in more {
        add_one(types, *t)?;
    }
    Ok(())
}

/// Adds the types that aren't there, but for this one.
fn add_others(types: &mut Items<TypeId>, of: TypeId, more: &[TypeId]) -> Result<(), AllocError>
    ensures ok { OnOk result ((p : AnId → Bool) → list_all p types.new ≡ (list_all p types.old && list_all p (without of more.now))) }
    ensures grows { list_grows types.old types.new }
{
    for t in more {
        if t.0 != of.0 {
            add_one(types, *t)?;
        }
    }
    Ok(())
}

impl<'a> Looking<'a> {
    /// An asker that has asked nothing yet.
    pub(crate) fn new(
        alloc: Global,
        env: &'a DeclaredTypes,
        memory: &'a Memory,
        marks: &'a [bool],
        of: TypeId,
    ) -> Looking<'a>
        requires kept { AreKept env.now memory.now.kept }
        requires in_hand { has_mark marks.now of ≡ true }
        ensures { result ≡ record { env = env.now; of = of; free = []; blocked = [] } }
    {
        Looking {
            env,
            memory,
            marks,
            of,
            free: Items::new(alloc),
            blocked: Items::new(alloc),
        }
    }

    /// What its answers rest on.
    pub(crate) fn into_notes(self) -> (Items<TypeId>, Items<TypeId>)
        ensures { (result.0 ≡ self.entry.free) × (result.1 ≡ self.entry.blocked) }
    {
        (self.free, self.blocked)
    }

    fn note(&mut self, free: &[TypeId], blocked: &[TypeId]) -> Result<(), AllocError>
        ensures noted { OnOk result (Noted self.old self.new free.now blocked.now) }
        ensures grows { (a : Ask) → FitsLook self.new a → FitsLook self.old a }
        ensures keeps { (o : Occasion) → is_at self.old o → is_at self.new o }
    {
        add_all(&mut self.free, free)?;
        add_others(&mut self.blocked, self.of, blocked)
    }

    /// The member types of a type that declares none of this name.
    fn answer(&mut self, alloc: Global, t: TypeId, name: &str) -> Result<Items<TypeId>, AskFault>
        requires { declared_types self.old.env t name.now ≡ [] }
        ensures value { IfOk result (λ ts. (a : Ask) → FitsLook self.new a → ts ≡ a t name.now) }
        ensures grows { (a : Ask) → FitsLook self.new a → FitsLook self.old a }
        ensures keeps { (o : Occasion) → is_at self.old o → is_at self.new o }
    {
        if has_mark(self.marks, t) {
            self.note(&[], &[t])?;
            return Ok(Items::new(alloc));
        }
        if !self.env.has(t) {
            return Ok(Items::new(alloc));
        }
        let memory = self.memory;
        let Some(kept) = memory.find(self.marks, t, name) else {
            return Err(AskFault::Unknown(t, Text::from_str(alloc, name)?));
        };
        self.note(kept.answer.free.as_slice(), kept.answer.blocked.as_slice())?;
        Ok(Items::from_slice(alloc, kept.answer.found.as_slice())?)
    }
}

impl<'a> Asks for Looking<'a> {
    ghost use Rattle.java_supers.specs.Keeping.{is_at, FitsLook};

    ghost Fits = { λ l a. FitsLook l a };

    ghost IsAt = { λ l o. is_at l o };

    fn ask(&mut self, alloc: Global, t: TypeId, name: &str) -> Result<Items<TypeId>, AskFault> {
        match self.env.declared_member(t, name) {
            Some(member) => Ok(only_if(alloc, true, member)?),
            None => self.answer(alloc, t, name),
        }
    }
}
