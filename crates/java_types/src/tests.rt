use super::*;
use java_tree::*;
use std::alloc::{AllocError, Global};
use std::process::Abort;
use std::test::Fail;

const NOWHERE: Span = Span { start: 0, end: 1 };

fn words(alloc: Global, words: &[&str]) -> Result<Items<Text>, AllocError> {
    let mut name = Items::new(alloc);
    for word in words {
        name.push(Text::from_str(alloc, word)?)?;
    }
    Ok(name)
}

fn a_type(
    alloc: Global,
    kind: TypeKind,
    local: bool,
    name: &str,
    parent: Option<u64>,
) -> Result<OutlineType, AllocError> {
    Ok(OutlineType {
        kind,
        local,
        name: Text::from_str(alloc, name)?,
        span: NOWHERE,
        modifiers: 0,
        parent,
        locals: Items::new(alloc),
        extends: Items::new(alloc),
        implements: Items::new(alloc),
        fields: Items::new(alloc),
        methods: Items::new(alloc),
        constructors: Items::new(alloc),
    })
}

fn one_class(alloc: Global, package: &[&str], name: &str) -> Result<Outline, AllocError> {
    let mut types = Items::new(alloc);
    types.push(a_type(alloc, TypeKind::Class, false, name, None)?)?;
    let package = words(alloc, package)?;
    Ok(Outline {
        package,
        imports: Items::new(alloc),
        types,
    })
}

/// A class, its member, a local class in that and an anonymous class in that.
fn nested(alloc: Global) -> Result<Outline, AllocError> {
    let mut types = Items::new(alloc);
    types.push(a_type(alloc, TypeKind::Class, false, "A", None)?)?;
    types.push(a_type(alloc, TypeKind::Interface, false, "B", Some(0))?)?;
    types.push(a_type(alloc, TypeKind::Class, true, "L", Some(1))?)?;
    types.push(a_type(alloc, TypeKind::Anonymous, false, "", Some(2))?)?;
    let package = words(alloc, &["p", "q"])?;
    Ok(Outline {
        package,
        imports: Items::new(alloc),
        types,
    })
}

fn add(
    rt: &impl Abort,
    alloc: Global,
    docs: &mut EnvDocs,
    path: &str,
    outline: &Outline,
) -> Result<(), AllocError> {
    let container = Text::from_str(alloc, "src")?;
    let path = Text::from_str(alloc, path)?;
    assert!(rt; is_container(container.as_str()));
    assert!(rt; is_source_path(path.as_str()));
    let name = DocName {
        container,
        path,
        version: 0,
        stamp: 0,
    };
    assert!(rt; docs.takes(&name));
    docs.add(alloc, &name, outline)
}

/// `A` of `p.q` with what is in it, `java.lang.Object`, and `A` of `p.q` again.
fn three_documents(rt: &impl Abort, alloc: Global) -> Result<DeclaredTypes, AllocError> {
    let mut docs = EnvDocs::new(alloc);
    add(rt, alloc, &mut docs, "A.java", &nested(alloc)?)?;
    let object = one_class(alloc, &["java", "lang"], "Object")?;
    add(rt, alloc, &mut docs, "B.java", &object)?;
    let again = one_class(alloc, &["p", "q"], "A")?;
    add(rt, alloc, &mut docs, "C.java", &again)?;
    DeclaredTypes::of(alloc, docs)
}

fn at(
    alloc: Global,
    env: &DeclaredTypes,
    container: &str,
    path: &str,
    number: u64,
) -> Result<Option<TypeId>, AllocError> {
    let container = Text::from_str(alloc, container)?;
    let path = Text::from_str(alloc, path)?;
    Ok(env.type_at(&DocPath { container, path }, number))
}

#[test]
fn types_are_found_by_their_documents(rt: HostRuntime) -> Result<(), Fail> {
    let env = three_documents(&rt, rt.alloc())?;
    let rows = [
        ("src", "A.java", 0, Some(TypeId(0))),
        ("src", "A.java", 3, Some(TypeId(3))),
        ("src", "A.java", 4, None),
        ("src", "B.java", 0, Some(TypeId(4))),
        ("src", "C.java", 0, Some(TypeId(5))),
        ("src", "C.java", 1, None),
        ("src", "D.java", 0, None),
        ("src", "0.java", 0, None),
        ("lib", "A.java", 0, None),
    ];
    for (container, path, number, found) in &rows {
        assert_eq!(rt; at(rt.alloc(), &env, container, path, *number)?, *found);
    }
    Ok(())
}

#[test]
fn string_comes_after_where_it_is_not_declared(rt: HostRuntime) -> Result<(), Fail> {
    let env = three_documents(&rt, rt.alloc())?;
    assert_eq!(rt; env.len(), 7);
    assert!(rt; !env.has(TypeId(7)));
    assert!(rt; env.has(TypeId(6)));
    let info = env.type_info(TypeId(6));
    assert!(rt; info.doc.is_none());
    assert!(rt; info.package.is("java.lang"));
    let none = DeclaredTypes::of(rt.alloc(), EnvDocs::new(rt.alloc()))?;
    assert_eq!(rt; none.len(), 2);
    Ok(())
}

/// A name by its dots, which is empty for an empty text.
fn dotted(alloc: Global, name: &str) -> Result<Items<Text>, AllocError> {
    let mut names = Items::new(alloc);
    if name.is_empty() {
        return Ok(names);
    }
    for word in name.split('.') {
        names.push(Text::from_str(alloc, word)?)?;
    }
    Ok(names)
}

fn named(
    alloc: Global,
    env: &DeclaredTypes,
    package: &str,
    name: &str,
) -> Result<Option<TypeId>, AllocError> {
    let names = dotted(alloc, name)?;
    Ok(env.type_named(package, names.as_slice()))
}

#[test]
fn types_are_found_by_their_names(rt: HostRuntime) -> Result<(), Fail> {
    let env = three_documents(&rt, rt.alloc())?;
    let rows = [
        ("p.q", "A", Some(TypeId(0))),
        ("p.q", "A.B", Some(TypeId(1))),
        ("p.q", "A.B.L", None),
        ("p.q", "", None),
        ("p", "q.A", None),
        ("java.lang", "Object", Some(TypeId(4))),
        ("java.lang", "String", Some(TypeId(6))),
    ];
    for (package, name, found) in &rows {
        assert_eq!(rt; named(rt.alloc(), &env, package, name)?, *found);
    }
    Ok(())
}

#[test]
fn object_is_found_where_it_is_not_declared(rt: HostRuntime) -> Result<(), Fail> {
    let none = DeclaredTypes::of(rt.alloc(), EnvDocs::new(rt.alloc()))?;
    let object = named(rt.alloc(), &none, "java.lang", "Object")?;
    assert_eq!(rt; object, Some(TypeId(0)));
    Ok(())
}

/// `A` of `p.q` with the member `B`, twice, and `A` of the unnamed package with a local class `B`.
fn members(rt: &impl Abort, alloc: Global) -> Result<DeclaredTypes, AllocError> {
    let mut docs = EnvDocs::new(alloc);
    add(rt, alloc, &mut docs, "A.java", &nested(alloc)?)?;
    add(rt, alloc, &mut docs, "B.java", &nested(alloc)?)?;
    let mut outline = one_class(alloc, &[], "A")?;
    outline
        .types
        .push(a_type(alloc, TypeKind::Class, true, "B", Some(0))?)?;
    add(rt, alloc, &mut docs, "C.java", &outline)?;
    DeclaredTypes::of(alloc, docs)
}

#[test]
fn member_types_are_found_in_their_types(rt: HostRuntime) -> Result<(), Fail> {
    let env = members(&rt, rt.alloc())?;
    let rows = [
        (0, "B", Some(TypeId(1))),
        (0, "A", None),
        (1, "L", None),
        (4, "B", Some(TypeId(1))),
        (8, "B", None),
        (99, "B", None),
    ];
    for (parent, name, found) in &rows {
        assert_eq!(rt; env.declared_member(TypeId(*parent), name), *found);
    }
    Ok(())
}

#[test]
fn packages_are_known_by_what_is_in_them(rt: HostRuntime) -> Result<(), Fail> {
    let env = three_documents(&rt, rt.alloc())?;
    let rows = [
        ("p", true),
        ("p.q", true),
        ("java.lang", true),
        ("", false),
        ("q", false),
        ("p.q.A", false),
    ];
    for (name, known) in &rows {
        let name = dotted(rt.alloc(), name)?;
        assert_eq!(rt; env.is_known_package(name.as_slice()), *known);
    }
    Ok(())
}

#[test]
fn names_begin_with_the_outermost(rt: HostRuntime) -> Result<(), Fail> {
    let env = three_documents(&rt, rt.alloc())?;
    assert!(rt; env.has(TypeId(3)));
    let info = env.type_info(TypeId(3));
    assert_eq!(rt; info.parent, Some(TypeId(2)));
    assert!(rt; info.package.is("p.q"));
    assert_eq!(rt; info.names.len(), 4);
    let rows = ["A", "B", "L", ""];
    for (name, expected) in info.names.as_slice().iter().zip(rows.iter()) {
        assert!(rt; name.is(expected));
    }
    Ok(())
}
