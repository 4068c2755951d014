use super::*;
use std::alloc::{AllocError, Global};
use std::test::*;

const NOWHERE: Span = Span { start: 0, end: 1 };

fn name(alloc: Global) -> Result<Items<Text>, AllocError> {
    let mut name = Items::new(alloc);
    name.push(Text::from_str(alloc, "A")?)?;
    Ok(name)
}

fn spelled(alloc: Global) -> Result<SpelledType, AllocError> {
    let name = name(alloc)?;
    Ok(SpelledType { name, dims: 1 })
}

fn a_field(alloc: Global) -> Result<OutlineField, AllocError> {
    let name = Text::from_str(alloc, "x")?;
    let of = spelled(alloc)?;
    Ok(OutlineField {
        name,
        of,
        modifiers: 0,
        span: NOWHERE,
    })
}

fn a_method(alloc: Global) -> Result<OutlineMethod, AllocError> {
    let name = Text::from_str(alloc, "f")?;
    let mut params = Items::new(alloc);
    params.push(spelled(alloc)?)?;
    let result = spelled(alloc)?;
    Ok(OutlineMethod {
        name,
        params,
        result,
        modifiers: 0,
        span: NOWHERE,
    })
}

fn a_type(alloc: Global) -> Result<OutlineType, AllocError> {
    let mut locals = Items::new(alloc);
    locals.push(0)?;
    let mut extends = Items::new(alloc);
    extends.push(name(alloc)?)?;
    let mut fields = Items::new(alloc);
    fields.push(a_field(alloc)?)?;
    let mut methods = Items::new(alloc);
    methods.push(a_method(alloc)?)?;
    Ok(OutlineType {
        kind: TypeKind::Class,
        local: false,
        name: Text::from_str(alloc, "A")?,
        span: NOWHERE,
        modifiers: 0,
        parent: None,
        locals,
        extends,
        implements: Items::new(alloc),
        fields,
        methods,
        constructors: Items::new(alloc),
    })
}

fn an_outline(alloc: Global) -> Result<Outline, AllocError> {
    let mut imports = Items::new(alloc);
    let imported = name(alloc)?;
    imports.push(ImportName {
        name: imported,
        star: true,
    })?;
    let mut types = Items::new(alloc);
    types.push(a_type(alloc)?)?;
    let package = name(alloc)?;
    Ok(Outline {
        package,
        imports,
        types,
    })
}

fn an_occurrence(alloc: Global) -> Result<Occurrence, AllocError> {
    Ok(Occurrence {
        kind: OccKind::PackageRef,
        span: NOWHERE,
        name: Text::from_str(alloc, "p")?,
        count: 0,
        binding: Binding::Package(Text::from_str(alloc, "p")?),
        accuracy: Accuracy::Accurate,
        access: Access::NoAccess,
    })
}

#[test]
fn copies_succeed_where_memory_is_ample(rt: HostRuntime) -> Result<(), Fail> {
    let outline = an_outline(rt.alloc())?.copy(rt.alloc())?;
    assert_eq!(rt; outline.types.len(), 1);
    let occurrence = an_occurrence(rt.alloc())?.copy(rt.alloc())?;
    assert!(rt; occurrence.name.is("p"));
    let element = ArrayElement::Absent(name(rt.alloc())?);
    let array = JType::Array(element, 1).copy(rt.alloc())?;
    assert!(rt; matches!(array, JType::Array(_, 1)));
    let scope = Scope::Containers(name(rt.alloc())?).copy(rt.alloc())?;
    assert!(rt; matches!(scope, Scope::Containers(_)));
    Ok(())
}
