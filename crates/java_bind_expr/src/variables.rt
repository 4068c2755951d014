//! The types of variables and of literals (JLS 6.5.6, 15.8.1).

ghost use Rattle.std.specs.Prelude.{◌≡◌, [], ◌∷◌, ◌++◌, codes, IfOk};
ghost use Rattle.java_tree.specs.declared.types.NameKind.TheVariants as kinds;
ghost use Rattle.java_model.specs.Grammar.Forms.{last_or};
ghost use Rattle.java_model.specs.Names.Environments.{java_lang};
ghost use Rattle.java_model.specs.Bindings.Calls.{qualifying_type};
ghost use Rattle.java_model.specs.Bindings.Chains.{class_type, literal_type, variable_type};

use crate::arithmetic::string;
use java_env::Env;
use java_tree::{Items, JType, Literal, NameKind, Primitive, Text};
use std::alloc::{AllocError, Global};

/// An equal meaning.
fn copied_kind(alloc: Global, kind: &NameKind) -> Result<NameKind, AllocError>
    ensures { IfOk result (λ k. k ≡ kind.now) }
{
    match kind {
        NameKind::Package => Ok(NameKind::Package),
        NameKind::Class(t) => Ok(NameKind::Class(*t)),
        NameKind::Field(f) => Ok(NameKind::Field(*f)),
        NameKind::Local(t) => Ok(NameKind::Local(t.copy(alloc)?)),
        NameKind::Nothing => Ok(NameKind::Nothing),
    }
}

/// What a whole name means whose identifiers mean these (JLS 6.5.2).
pub fn whole_kind(alloc: Global, each: &[NameKind]) -> Result<NameKind, AllocError>
    ensures { IfOk result (λ k. k ≡ last_or kinds.Nothing each.now) }
{
    match each {
        [] => Ok(NameKind::Nothing),
        [.., last] => copied_kind(alloc, last),
    }
}

/// The type of a value or of a type before a dot, none for a package or nothing.
pub fn qualifying_type(alloc: Global, env: &Env, kind: NameKind) -> Result<JType, AllocError>
    ensures { IfOk result (λ t. t ≡ qualifying_type env.now kind) }
{
    match kind {
        NameKind::Local(t) => Ok(t),
        NameKind::Field(f) => env.field_type(alloc, f),
        NameKind::Class(t) => Ok(JType::Class(t)),
        NameKind::Package | NameKind::Nothing => Ok(JType::Unknown),
    }
}

/// The type of a variable. A type or a package is no value (JLS 6.5.6).
pub fn variable_type(alloc: Global, env: &Env, kind: NameKind) -> Result<JType, AllocError>
    ensures { IfOk result (λ t. t ≡ variable_type env.now kind) }
{
    match kind {
        NameKind::Class(_) => Ok(JType::Unknown),
        _ => qualifying_type(alloc, env, kind),
    }
}

/// `java.lang.Class` by its identifiers.
fn class_name(alloc: Global) -> Result<Items<Text>, AllocError>
    ensures { IfOk result (λ n. n ≡ java_lang ++ codes "Class" ∷ []) }
{
    let mut name = Items::new(alloc);
    name.push(Text::from_str(alloc, "java")?)?;
    name.push(Text::from_str(alloc, "lang")?)?;
    name.push(Text::from_str(alloc, "Class")?)?;
    Ok(name)
}

/// The type of a class literal (JLS 15.8.2).
pub(crate) fn class_type(alloc: Global, env: &Env) -> Result<JType, AllocError>
    ensures { IfOk result (λ t. t ≡ class_type env.now) }
{
    let names = [Text::from_str(alloc, "Class")?];
    match env.types().type_named("java.lang", &names) {
        Some(t) => Ok(JType::Class(t)),
        None => Ok(JType::Absent(class_name(alloc)?)),
    }
}

/// The type of a literal (JLS 15.8.1).
pub(crate) fn literal_type(alloc: Global, env: &Env, literal: &Literal) -> Result<JType, AllocError>
    ensures { IfOk result (λ t. t ≡ literal_type env.now literal.now) }
{
    match literal {
        Literal::Int(_) => Ok(JType::Primitive(Primitive::Int)),
        Literal::Long(_) => Ok(JType::Primitive(Primitive::Long)),
        Literal::Float(_) => Ok(JType::Primitive(Primitive::Float)),
        Literal::Double(_) => Ok(JType::Primitive(Primitive::Double)),
        Literal::Char(_) => Ok(JType::Primitive(Primitive::Char)),
        Literal::String(_) => Ok(JType::Class(string(alloc, env)?)),
        Literal::True | Literal::False => Ok(JType::Primitive(Primitive::Boolean)),
        Literal::Null => Ok(JType::Null),
    }
}
