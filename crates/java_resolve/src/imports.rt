//! Imported types (JLS 7.5).

ghost use Rattle.std.specs.Prelude.{◌≡◌, None, [], ◌∷◌, ◌++◌, cond, IfOk, OnOk};
ghost use Rattle.std.specs.List.{flat_map, last_or};
ghost use Rattle.std.specs.Option.{option_copied};
ghost use Rattle.java_model.specs.Names.Environments.{java_lang, same_id};
ghost use Rattle.java_model.specs.Names.Lists.{fresh, is_among};
ghost use Rattle.java_model.specs.Names.TypeNames.{Ask, imported, imports_name, in_imported_type, of_package, on_demand, on_demand_by};
ghost use Rattle.java_resolve.specs.Occasions.{Occasion};

use crate::after::{import_type, import_types};
use crate::asks::Asks;
use crate::fault::AskFault;
use crate::meaning::type_in_package;
use java_tree::{ImportName, Items, JType, Outline, Text, TypeId};
use java_types::DeclaredTypes;
use std::alloc::{AllocError, Global};

fn last_of(name: &[Text]) -> Option<&Text>
    ensures { option_copied result ≡ last_or None name.now }
{
    name.last()
}

/// Whether an import is a single-type import of a name (JLS 7.5.1).
fn imports_name(name: &str, import: &ImportName) -> bool
    ensures { result ≡ imports_name name.now import.now }
{
    if import.star {
        return false;
    }
    match last_of(import.name.as_slice()) {
        Some(last) => name == last.as_str(),
        None => false,
    }
}

/// What the first single-type import of a name means.
pub(crate) fn imported<A: Asks>(
    alloc: Global,
    env: &DeclaredTypes,
    asker: &mut A,
    outline: &Outline,
    name: &str,
) -> Result<Option<JType>, AskFault>
    ensures value { IfOk result (λ t. (a : Ask) → A.Fits asker.new a → t ≡ imported env.now a outline.now name.now) }
    ensures grows { (a : Ask) → A.Fits asker.new a → A.Fits asker.old a }
    ensures keeps { (o : Occasion) → A.IsAt asker.old o → A.IsAt asker.new o }
{
    for import in outline.imports.as_slice() {
        if imports_name(name, import) {
            return Ok(Some(import_type(alloc, env, asker, import.name.as_slice())?));
        }
    }
    Ok(None)
}

/// The types of a name in an imported type or package (JLS 7.5.2).
fn in_imported_type<A: Asks>(
    alloc: Global,
    env: &DeclaredTypes,
    asker: &mut A,
    spelled: &[Text],
    name: &str,
    types: &[TypeId],
) -> Result<Items<TypeId>, AskFault>
    ensures value { IfOk result (λ ts. (a : Ask) → A.Fits asker.new a → ts ≡ in_imported_type env.now a spelled.now name.now types.now) }
    ensures grows { (a : Ask) → A.Fits asker.new a → A.Fits asker.old a }
    ensures keeps { (o : Occasion) → A.IsAt asker.old o → A.IsAt asker.new o }
{
    match types {
        [one] => asker.ask(alloc, *one, name),
        _ => Ok(type_in_package(alloc, env, spelled, name)?),
    }
}

/// The types that a type-import-on-demand declaration gives a name (JLS 7.5.2).
fn on_demand_by<A: Asks>(
    alloc: Global,
    env: &DeclaredTypes,
    asker: &mut A,
    name: &str,
    import: &ImportName,
) -> Result<Items<TypeId>, AskFault>
    ensures value { IfOk result (λ ts. (a : Ask) → A.Fits asker.new a → ts ≡ on_demand_by env.now a name.now import.now) }
    ensures grows { (a : Ask) → A.Fits asker.new a → A.Fits asker.old a }
    ensures keeps { (o : Occasion) → A.IsAt asker.old o → A.IsAt asker.new o }
{
    if !import.star {
        return Ok(Items::new(alloc));
    }
    let spelled = import.name.as_slice();
    let types = import_types(alloc, env, asker, spelled)?;
    in_imported_type(alloc, env, asker, spelled, name, types.as_slice())
}

/// The types that all such declarations give a name.
fn all_on_demand<A: Asks>(
    alloc: Global,
    env: &DeclaredTypes,
    asker: &mut A,
    name: &str,
    imports: &[ImportName],
) -> Result<Items<TypeId>, AskFault>
    ensures value { IfOk result (λ ts. (a : Ask) → A.Fits asker.new a → ts ≡ flat_map (on_demand_by env.now a name.now) imports.now) }
    ensures grows { (a : Ask) → A.Fits asker.new a → A.Fits asker.old a }
    ensures keeps { (o : Occasion) → A.IsAt asker.old o → A.IsAt asker.new o }
{
    let mut types = Items::new(alloc);
    for import in imports {
        types.append(on_demand_by(alloc, env, asker, name, import)?)?;
    }
    Ok(types)
}

pub fn is_among(t: TypeId, types: &[TypeId]) -> bool
    ensures { result ≡ is_among same_id t types.now }
{
    types.iter().any(|other| t.0 == other.0)
}

fn add_once(t: TypeId, types: &mut Items<TypeId>) -> Result<(), AllocError>
    ensures { OnOk result (types.new ≡ cond (is_among same_id t types.old) types.old (types.old ++ t ∷ [])) }
{
    if is_among(t, types.as_slice()) {
        return Ok(());
    }
    types.push(t)
}

/// Each type once.
pub fn each_once(alloc: Global, types: &[TypeId]) -> Result<Items<TypeId>, AllocError>
    ensures { IfOk result (λ ts. ts ≡ fresh same_id [] types.now) }
{
    let mut once = Items::new(alloc);
    for t in types {
        add_once(*t, &mut once)?;
    }
    Ok(once)
}

/// The types that the type-import-on-demand declarations and `java.lang` give a name (JLS 7.5.2, 7.5.3).
pub(crate) fn on_demand<A: Asks>(
    alloc: Global,
    env: &DeclaredTypes,
    asker: &mut A,
    outline: &Outline,
    name: &str,
) -> Result<Items<TypeId>, AskFault>
    ensures value { IfOk result (λ ts. (a : Ask) → A.Fits asker.new a → ts ≡ on_demand env.now a outline.now name.now) }
    ensures grows { (a : Ask) → A.Fits asker.new a → A.Fits asker.old a }
    ensures keeps { (o : Occasion) → A.IsAt asker.old o → A.IsAt asker.new o }
{
    let java_lang = [
        Text::from_str(alloc, "java")?,
        Text::from_str(alloc, "lang")?,
    ];
    let mut types = all_on_demand(alloc, env, asker, name, outline.imports.as_slice())?;
    types.append(type_in_package(alloc, env, &java_lang, name)?)?;
    Ok(each_once(alloc, types.as_slice())?)
}

/// The type of the document's own package (JLS 6.3, 7.6).
pub(crate) fn of_package(
    alloc: Global,
    env: &DeclaredTypes,
    outline: &Outline,
    name: &str,
) -> Result<Items<TypeId>, AllocError>
    ensures { IfOk result (λ ts. ts ≡ of_package env.now outline.now name.now) }
{
    type_in_package(alloc, env, outline.package.as_slice(), name)
}
