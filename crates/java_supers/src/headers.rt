//! The supertypes that headers spell, by an explicit stack.

ghost use Rattle.std.specs.Prelude.{◌≡◌, IfOk};
ghost use Rattle.java_model.specs.Names.Supertypes.{header_supers};
ghost use Rattle.java_supers.specs.Keeping.{AreKept};

use crate::answers::{answer, header};
use crate::marks::set_mark;
use crate::memory::Memory;
use java_resolve::AskFault;
use java_tree::{Items, JType, Text, TypeId};
use java_types::DeclaredTypes;
use std::alloc::{AllocError, Global};

/// A question that waits for the answers of those above it.
#[derive(Debug, Drop)]
struct Question {
    of: TypeId,
    name: Text,
}

/// Answers a question, or puts what it has to know before above it.
fn turn(
    alloc: Global,
    env: &DeclaredTypes,
    memory: &mut Memory,
    marks: &mut Items<bool>,
    questions: &mut Items<Question>,
    question: Question,
) -> Result<(), AllocError>
    requires { AreKept env.now memory.old.kept }
    ensures { AreKept env.now memory.new.kept }
{
    let of = question.of;
    match answer(
        alloc,
        env,
        memory,
        marks.as_slice(),
        of,
        question.name.as_str(),
    ) {
        Ok(found) => {
            set_mark(marks, of, false);
            memory.add(of, question.name, found)
        }
        Err(AskFault::Unknown(t, name)) => {
            set_mark(marks, t, true);
            questions.push(question)?;
            questions.push(Question { of: t, name })
        }
        Err(AskFault::NoMemory) => Err(AllocError),
    }
}

/// Answers a question and all that it has to know before. Each turn answers one question or puts one on the stack.
pub(crate) fn settle(
    alloc: Global,
    env: &DeclaredTypes,
    memory: &mut Memory,
    marks: &mut Items<bool>,
    of: TypeId,
    name: Text,
) -> Result<(), AllocError>
    requires { AreKept env.now memory.old.kept }
    ensures { AreKept env.now memory.new.kept }
{
    let mut questions = Items::new(alloc);
    set_mark(marks, of, true);
    questions.push(Question { of, name })?;
    for _ in 0..u64::MAX {
        let Some(question) = questions.pop() else {
            return Ok(());
        };
        turn(alloc, env, memory, marks, &mut questions, question)?;
    }
    Err(AllocError)
}

/// The supertypes that the header of a type spells.
pub(crate) fn header_supers(
    alloc: Global,
    env: &DeclaredTypes,
    memory: &mut Memory,
    marks: &mut Items<bool>,
    t: TypeId,
) -> Result<Items<JType>, AllocError>
    requires { AreKept env.now memory.old.kept }
    ensures value { IfOk result (λ ts. ts ≡ header_supers env.now t) }
    ensures kept { AreKept env.now memory.new.kept }
{
    set_mark(marks, t, true);
    for _ in 0..u64::MAX {
        match header(alloc, env, memory, marks.as_slice(), t) {
            Ok(types) => {
                set_mark(marks, t, false);
                return Ok(types);
            }
            Err(AskFault::Unknown(of, name)) => settle(alloc, env, memory, marks, of, name)?,
            Err(AskFault::NoMemory) => return Err(AllocError),
        }
    }
    Err(AllocError)
}
