//! What names in the headers of types mean.

ghost use Rattle.std.specs.Prelude.{◌≡◌, Some, IfOk};
ghost use Rattle.java_model.specs.Names.Environments.{declared_at};
ghost use Rattle.java_model.specs.Names.Supertypes.{resolve_in_header};
ghost use Rattle.java_model.specs.Scopes.TypeNames.{header_kinds};

use crate::answers::{header_kinds, resolve_in_header};
use crate::headers::settle;
use crate::hierarchy::Hierarchy;
use crate::marks::{clear_marks, set_mark};
use crate::memory::Memory;
use crate::reaching::unmarked;
use java_resolve::AskFault;
use java_tree::{Items, JType, NameKind, Text, TypeId};
use java_types::{DeclaredType, DeclaredTypes};
use std::alloc::{AllocError, Global};
use std::marker::Model;

/// What names in the headers of types mean (JLS 8.1.3, 8.1.4, 9.1.2, 15.9.5): the type whose header it is is in hand. It
/// keeps the answers about member types that it has found.
#[derive(Drop)]
pub struct Headers<'a> {
    env: &'a DeclaredTypes,
    memory: Memory,
    marks: Items<bool>,
}

impl<'a> Model for Headers<'a> {
    ghost use Rattle.std.specs.Prelude.{List};
    ghost use Rattle.java_model.specs.Names.Environments.{EnvDocument};
    ghost use Rattle.java_supers.specs.Keeping.{AreKept};

    ghost Value = { List EnvDocument };

    ghost view = { λ h. h.env.now };

    ghost invariant = { λ h. AreKept h.env.now h.memory.kept };
}

impl<'a> Headers<'a> {
    /// No answers yet.
    pub fn new(alloc: Global, env: &'a Hierarchy) -> Result<Headers<'a>, AllocError>
        ensures { IfOk result (λ h. h ≡ env.now) }
    {
        let types = env.types();
        Ok(Headers {
            env: types,
            memory: Memory::new(alloc),
            marks: unmarked(alloc, types.len())?,
        })
    }

    /// Finds what an answer has to know before it.
    fn learn(&mut self, alloc: Global, fault: AskFault) -> Result<(), AllocError>
        ensures { self.new ≡ self.old }
    {
        let learned = match fault {
            AskFault::Unknown(of, name) => {
                settle(alloc, self.env, &mut self.memory, &mut self.marks, of, name)
            }
            AskFault::NoMemory => Err(AllocError),
        };
        if learned.is_err() {
            clear_marks(&mut self.marks);
        }
        learned
    }

    /// What a name in the header of a type means: a class, or absent (JLS 6.5.5).
    pub fn resolve_in_header(
        &mut self,
        alloc: Global,
        d: &DeclaredType<'_>,
        t: TypeId,
        name: &[Text],
    ) -> Result<JType, AllocError>
        requires { declared_at self.old t ≡ Some d.now }
        ensures value { IfOk result (λ of. of ≡ resolve_in_header self.old d.now t name.now) }
        ensures same { self.new ≡ self.old }
    {
        for _ in 0..u64::MAX {
            set_mark(&mut self.marks, t, true);
            let found = resolve_in_header(
                alloc,
                self.env,
                &self.memory,
                self.marks.as_slice(),
                d,
                t,
                name,
            );
            match found {
                Ok(of) => {
                    set_mark(&mut self.marks, t, false);
                    return Ok(of);
                }
                Err(fault) => self.learn(alloc, fault)?,
            }
        }
        Err(AllocError)
    }

    /// What each identifier of a name in the header of a type means (JLS 6.5.4, 6.5.5).
    pub fn header_kinds(
        &mut self,
        alloc: Global,
        d: &DeclaredType<'_>,
        t: TypeId,
        name: &[Text],
    ) -> Result<Items<NameKind>, AllocError>
        requires { declared_at self.old t ≡ Some d.now }
        ensures value { IfOk result (λ ks. ks ≡ header_kinds self.old d.now t name.now) }
        ensures same { self.new ≡ self.old }
    {
        for _ in 0..u64::MAX {
            set_mark(&mut self.marks, t, true);
            let found = header_kinds(
                alloc,
                self.env,
                &self.memory,
                self.marks.as_slice(),
                d,
                t,
                name,
            );
            match found {
                Ok(kinds) => {
                    set_mark(&mut self.marks, t, false);
                    return Ok(kinds);
                }
                Err(fault) => self.learn(alloc, fault)?,
            }
        }
        Err(AllocError)
    }
}
