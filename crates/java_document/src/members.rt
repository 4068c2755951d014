//! The fields, methods and constructors that a type declares.

ghost use Rattle.std.specs.Prelude.{◌≡◌, ◌++◌, map, IfOk, OnOk};
ghost use Rattle.std.specs.List.{flat_map};
ghost use Rattle.java_model.specs.Outlines.{field_of, method_of, constructor_of, fields_in, methods_in, constructors_in};

use crate::spelled::{
    parameter_types, spelled_modifiers, spelled_result, spelled_type, spelled_void,
};
use java_tree::{
    Constructor, Fields, Items, Member, Method, OutlineField, OutlineMethod, Variable,
};
use std::alloc::{AllocError, Global};

fn field_of(alloc: Global, fields: &Fields, variable: &Variable) -> Result<OutlineField, AllocError>
    ensures { IfOk result (λ f. f ≡ field_of fields.now variable.now) }
{
    let name = variable.name.name.copy(alloc)?;
    let of = spelled_type(alloc, &fields.of, variable.dims)?;
    Ok(OutlineField {
        name,
        of,
        modifiers: spelled_modifiers(fields.modifiers.as_slice()),
        span: variable.name.span,
    })
}

fn method_of(alloc: Global, method: &Method) -> Result<OutlineMethod, AllocError>
    ensures { IfOk result (λ m. m ≡ method_of method.now) }
{
    let name = method.name.name.copy(alloc)?;
    let params = parameter_types(alloc, method.parameters.as_slice())?;
    let result = spelled_result(alloc, &method.result, method.dims)?;
    Ok(OutlineMethod {
        name,
        params,
        result,
        modifiers: spelled_modifiers(method.modifiers.as_slice()),
        span: method.name.span,
    })
}

fn constructor_of(alloc: Global, constructor: &Constructor) -> Result<OutlineMethod, AllocError>
    ensures { IfOk result (λ m. m ≡ constructor_of constructor.now) }
{
    let name = constructor.name.name.copy(alloc)?;
    let params = parameter_types(alloc, constructor.parameters.as_slice())?;
    let result = spelled_void(alloc, 0)?;
    Ok(OutlineMethod {
        name,
        params,
        result,
        modifiers: spelled_modifiers(constructor.modifiers.as_slice()),
        span: constructor.name.span,
    })
}

fn push_fields(
    alloc: Global,
    declared: &Fields,
    fields: &mut Items<OutlineField>,
) -> Result<(), AllocError>
    ensures { OnOk result (fields.new ≡ fields.old ++ map (field_of declared.now) declared.now.variables) }
{
    for variable in declared.variables.as_slice() {
        fields.push(field_of(alloc, declared, variable)?)?;
    }
    Ok(())
}

fn fields_in(
    alloc: Global,
    member: &Member,
    fields: &mut Items<OutlineField>,
) -> Result<(), AllocError>
    ensures { OnOk result (fields.new ≡ fields.old ++ fields_in member.now) }
{
    match member {
        Member::Field(declared) => push_fields(alloc, declared, fields),
        _ => Ok(()),
    }
}

fn methods_in(
    alloc: Global,
    member: &Member,
    methods: &mut Items<OutlineMethod>,
) -> Result<(), AllocError>
    ensures { OnOk result (methods.new ≡ methods.old ++ methods_in member.now) }
{
    if let Member::Method(method) = member {
        methods.push(method_of(alloc, method)?)?;
    }
    Ok(())
}

fn constructors_in(
    alloc: Global,
    member: &Member,
    constructors: &mut Items<OutlineMethod>,
) -> Result<(), AllocError>
    ensures { OnOk result (constructors.new ≡ constructors.old ++ constructors_in member.now) }
{
    if let Member::Constructor(constructor) = member {
        constructors.push(constructor_of(alloc, constructor)?)?;
    }
    Ok(())
}

pub(crate) fn fields(alloc: Global, members: &[Member]) -> Result<Items<OutlineField>, AllocError>
    ensures { IfOk result (λ fs. fs ≡ flat_map fields_in members.now) }
{
    let mut fields = Items::new(alloc);
    for member in members {
        fields_in(alloc, member, &mut fields)?;
    }
    Ok(fields)
}

pub(crate) fn methods(alloc: Global, members: &[Member]) -> Result<Items<OutlineMethod>, AllocError>
    ensures { IfOk result (λ ms. ms ≡ flat_map methods_in members.now) }
{
    let mut methods = Items::new(alloc);
    for member in members {
        methods_in(alloc, member, &mut methods)?;
    }
    Ok(methods)
}

pub(crate) fn constructors(
    alloc: Global,
    members: &[Member],
) -> Result<Items<OutlineMethod>, AllocError>
    ensures { IfOk result (λ ms. ms ≡ flat_map constructors_in members.now) }
{
    let mut constructors = Items::new(alloc);
    for member in members {
        constructors_in(alloc, member, &mut constructors)?;
    }
    Ok(constructors)
}
