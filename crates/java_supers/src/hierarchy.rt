ghost use Rattle.std.specs.Prelude.{◌≡◌, Some, [], ◌∷◌, cond, false, length, map, IfOk, IsTrue, OnOk};
ghost use Rattle.std.specs.List.{flat_map};
ghost use Rattle.java_tree.specs.declared.occurrence.TypeId.{TypeId as AnId};
ghost use Rattle.java_tree.specs.declared.types.JType.TheVariants as types;
ghost use Rattle.java_model.specs.Names.Environments.{same_id};
ghost use Rattle.java_model.specs.Names.Lists.{is_among};
ghost use Rattle.java_model.specs.Names.Supertypes.{header_supers, is_sub, known_supers, supers};
ghost use Rattle.java_model.specs.Names.TypeNames.{class_of};
ghost use Rattle.java_types.specs.Entries.{is_declared};
ghost use Rattle.java_supers.specs.Keeping.{has_mark};
ghost use Rattle.java_supers.specs.Ranking.{AreRanks, HaveRanks};
ghost use Rattle.java_supers.specs.Reaching.{reached_in, HasAll};

use crate::headers::header_supers;
use crate::inherited::classes_of;
use crate::memory::Memory;
use crate::ranking::{check_ranked, is_ranked, ranks};
use crate::reaching::{next_in, reached_in, unmarked};
use crate::walking::{all_beside, leads_to};
use java_resolve::is_among;
use java_tree::{Items, JType, TypeId};
use java_types::{DeclaredTypes, EnvDocs};
use std::alloc::{AllocError, Global};
use std::marker::Model;

/// The types that documents declare, and the supertypes of each.
#[derive(Debug, Drop)]
pub struct Hierarchy {
    declared: DeclaredTypes,
    direct: Items<Items<JType>>,
    known: Items<Items<TypeId>>,
    beside: Items<Items<TypeId>>,
}

impl Model for Hierarchy {
    ghost use Rattle.std.specs.Prelude.{List};
    ghost use Rattle.java_model.specs.Names.Environments.{EnvDocument};
    ghost use Rattle.java_supers.specs.Walking.{IsHierarchyOf};

    ghost Value = { List EnvDocument };

    ghost view = { λ e. e.declared };

    ghost invariant = { λ e. IsHierarchyOf e.declared e.direct e.known e.beside };
}

/// The supertypes that the headers of all types spell.
fn all_headers(alloc: Global, env: &DeclaredTypes) -> Result<Items<Items<JType>>, AllocError>
    ensures { IfOk result (λ hs. HasAll (header_supers env.now) env.now hs) }
{
    let mut memory = Memory::new(alloc);
    let mut marks = unmarked(alloc, env.len())?;
    let mut headers = Items::new(alloc);
    for number in 0..env.len() {
        let t = TypeId(number as u64);
        let header = header_supers(alloc, env, &mut memory, &mut marks, t)?;
        headers.push(header)?;
    }
    Ok(headers)
}

/// The classes among the supertypes of each type.
fn all_classes(alloc: Global, types: &[Items<JType>]) -> Result<Items<Items<TypeId>>, AllocError>
    ensures { IfOk result (λ cs. cs ≡ map (flat_map class_of) types.now) }
{
    let mut classes = Items::new(alloc);
    for of in types {
        classes.push(classes_of(alloc, of.as_slice())?)?;
    }
    Ok(classes)
}

fn copied(alloc: Global, types: &[JType]) -> Result<Items<JType>, AllocError>
    ensures { IfOk result (λ ts. ts ≡ types.now) }
{
    let mut copy = Items::new(alloc);
    for of in types {
        copy.push(of.copy(alloc)?)?;
    }
    Ok(copy)
}

/// Whether the supertypes in headers lead from a type back to it. One that has a rank is on no cycle.
fn is_on_cycle(
    alloc: Global,
    nexts: &[Items<TypeId>],
    ranks: &[Option<u64>],
    marks: &mut Items<bool>,
    t: TypeId,
) -> Result<bool, AllocError>
    requires ranks { AreRanks nexts.now ranks.now }
    requires none { (u : AnId) → has_mark marks.old u ≡ false }
    ensures unmarked { OnOk result ((u : AnId) → has_mark marks.new u ≡ false) }
    ensures value { IfOk result (λ b. b ≡ is_among same_id t (reached_in nexts.now t)) }
{
    if is_ranked(ranks, t) {
        return Ok(false);
    }
    let reached = reached_in(alloc, nexts, marks, t)?;
    Ok(is_among(t, reached.as_slice()))
}

/// A type on a cycle has no known supertypes (JLS 8.1.3, 9.1.2).
fn off_cycle(alloc: Global, header: &[JType], on_cycle: bool) -> Result<Items<JType>, AllocError>
    ensures { IfOk result (λ ts. ts ≡ cond on_cycle (types.Absent [] ∷ []) header.now) }
{
    if !on_cycle {
        return copied(alloc, header);
    }
    let mut types = Items::new(alloc);
    types.push(JType::Absent(Items::new(alloc)))?;
    Ok(types)
}

/// The supertypes of all types. It goes once over them, and again for each type that leads to a cycle.
fn all_supers(
    alloc: Global,
    env: &DeclaredTypes,
    headers: &[Items<JType>],
    nexts: &[Items<TypeId>],
) -> Result<Items<Items<JType>>, AllocError>
    requires headers { HasAll (header_supers env.now) env.now headers.now }
    requires nexts { nexts.now ≡ map (flat_map class_of) headers.now }
    ensures { IfOk result (λ ss. HasAll (supers env.now) env.now ss) }
{
    let ranks = ranks(alloc, nexts)?;
    let mut marks = unmarked(alloc, headers.len())?;
    let mut supers = Items::new(alloc);
    for number in 0..headers.len() {
        let header = headers[number].as_slice();
        let t = TypeId(number as u64);
        let on_cycle = is_on_cycle(alloc, nexts, ranks.as_slice(), &mut marks, t)?;
        let own = off_cycle(alloc, header, on_cycle)?;
        supers.push(own)?;
    }
    Ok(supers)
}

/// The supertypes of all types.
fn direct_supers(alloc: Global, env: &DeclaredTypes) -> Result<Items<Items<JType>>, AllocError>
    ensures { IfOk result (λ ss. HasAll (supers env.now) env.now ss) }
{
    let headers = all_headers(alloc, env)?;
    let nexts = all_classes(alloc, headers.as_slice())?;
    all_supers(alloc, env, headers.as_slice(), nexts.as_slice())
}

/// The known ones among the supertypes of all types. None of them leads back to its type.
fn known_among(alloc: Global, direct: &[Items<JType>]) -> Result<Items<Items<TypeId>>, AllocError>
    ensures known { IfOk result (λ ks. ks ≡ map (flat_map class_of) direct.now) }
    ensures ranked { IfOk result (λ ks. HaveRanks ks) }
{
    let known = all_classes(alloc, direct)?;
    check_ranked(alloc, known.as_slice())?;
    Ok(known)
}

impl Hierarchy {
    /// The types of these documents, with their supertypes. It goes once over what each type leads to, and keeps of it
    /// what a walk along first supertypes doesn't come to.
    pub fn of(alloc: Global, docs: EnvDocs) -> Result<Hierarchy, AllocError>
        ensures { IfOk result (λ env. env ≡ docs) }
    {
        let declared = DeclaredTypes::of(alloc, docs)?;
        let direct = direct_supers(alloc, &declared)?;
        let known = known_among(alloc, direct.as_slice())?;
        let beside = all_beside(alloc, known.as_slice())?;
        let hierarchy = Hierarchy {
            declared,
            direct,
            known,
            beside,
        };
        Ok(hierarchy)
    }

    /// The types.
    pub fn types(&self) -> &DeclaredTypes
        ensures { result.now ≡ self.now }
    {
        &self.declared
    }

    /// The direct supertypes of a type, its superclass first (JLS 8.1.3, 8.1.4, 9.1.2).
    pub fn supers(&self, t: TypeId) -> &[JType]
        requires { IsTrue (is_declared self.now t) }
        ensures { result.now ≡ supers self.now t }
    {
        self.direct.as_slice()[t.0 as usize].as_slice()
    }

    /// The known ones among the direct supertypes of a type.
    pub fn known_supers(&self, t: TypeId) -> &[TypeId]
        ensures { result.now ≡ known_supers self.now t }
    {
        next_in(self.known.as_slice(), t)
    }

    /// Whether a type is a subtype of another. It goes along first supertypes, and takes no memory.
    pub fn is_sub(&self, s: TypeId, t: TypeId) -> bool
        requires { IsTrue (is_declared self.now s) }
        ensures { result ≡ is_sub self.now s t }
    {
        leads_to(self.known.as_slice(), self.beside.as_slice(), s, t)
    }
}
