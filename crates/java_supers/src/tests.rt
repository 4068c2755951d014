use super::*;
use java_tree::*;
use java_types::EnvDocs;
use std::alloc::{AllocError, Global};
use std::process::Abort;
use std::test::Fail;

fn one_name(alloc: Global, word: &str) -> Result<Items<Items<Text>>, AllocError> {
    let mut names = Items::new(alloc);
    if !word.is_empty() {
        let mut name = Items::new(alloc);
        name.push(Text::from_str(alloc, word)?)?;
        names.push(name)?;
    }
    Ok(names)
}

fn a_type(
    alloc: Global,
    kind: TypeKind,
    name: &str,
    parent: Option<u64>,
    extends: &str,
) -> Result<OutlineType, AllocError> {
    Ok(OutlineType {
        kind,
        local: false,
        name: Text::from_str(alloc, name)?,
        span: Span { start: 0, end: 1 },
        modifiers: 0,
        parent,
        locals: Items::new(alloc),
        extends: one_name(alloc, extends)?,
        implements: Items::new(alloc),
        fields: Items::new(alloc),
        methods: Items::new(alloc),
        constructors: Items::new(alloc),
    })
}

/// `A`, `B` and `C` in a circle; `M extends N` with `P extends S`, whose `S` is a member of `N`; an interface `I`, and
/// anonymous classes of it and of a type that isn't there.
fn types(alloc: Global) -> Result<Items<OutlineType>, AllocError> {
    let rows = [
        (TypeKind::Class, "A", None, "B"),
        (TypeKind::Class, "B", None, "C"),
        (TypeKind::Class, "C", None, "A"),
        (TypeKind::Class, "M", None, "N"),
        (TypeKind::Class, "P", Some(3), "S"),
        (TypeKind::Class, "N", None, ""),
        (TypeKind::Class, "S", Some(5), ""),
        (TypeKind::Interface, "I", None, ""),
        (TypeKind::Anonymous, "", Some(3), "I"),
        (TypeKind::Anonymous, "", Some(3), "X"),
    ];
    let mut types = Items::new(alloc);
    for (kind, name, parent, extends) in &rows {
        types.push(a_type(alloc, *kind, name, *parent, extends)?)?;
    }
    Ok(types)
}

fn environment(rt: &impl Abort, alloc: Global) -> Result<Hierarchy, AllocError> {
    let outline = Outline {
        package: Items::new(alloc),
        imports: Items::new(alloc),
        types: types(alloc)?,
    };
    let name = DocName {
        container: Text::from_str(alloc, "src")?,
        path: Text::from_str(alloc, "A.java")?,
        version: 0,
        stamp: 0,
    };
    assert!(rt; is_container(name.container.as_str()));
    assert!(rt; is_source_path(name.path.as_str()));
    let mut docs = EnvDocs::new(alloc);
    assert!(rt; docs.takes(&name));
    docs.add(alloc, &name, &outline)?;
    Hierarchy::of(alloc, docs)
}

/// The number of the first supertype, and how many there are; 99 for an absent one.
fn first_super(rt: &impl Abort, env: &Hierarchy, t: TypeId) -> (u64, usize) {
    assert!(rt; env.types().has(t));
    let supers = env.supers(t);
    match supers {
        [JType::Class(first), ..] => (first.0, supers.len()),
        [] => (98, 0),
        _ => (99, supers.len()),
    }
}

#[test]
fn supertypes_are_looked_up(rt: HostRuntime) -> Result<(), Fail> {
    let env = environment(&rt, rt.alloc())?;
    let rows = [
        (0, 99, 1),
        (1, 99, 1),
        (2, 99, 1),
        (3, 5, 1),
        (4, 6, 1),
        (5, 10, 1),
        (6, 10, 1),
        (7, 98, 0),
        (8, 10, 2),
        (9, 99, 1),
        (10, 98, 0),
        (11, 10, 1),
    ];
    for (t, first, many) in &rows {
        let (found, count) = first_super(&rt, &env, TypeId(*t));
        assert_eq!(rt; found, *first);
        assert_eq!(rt; count, *many);
    }
    let pairs = [
        (3, 10, true),
        (4, 10, true),
        (4, 5, false),
        (8, 7, true),
        (0, 1, false),
    ];
    for (s, t, sub) in &pairs {
        assert!(rt; env.types().has(TypeId(*s)));
        assert_eq!(rt; env.is_sub(TypeId(*s), TypeId(*t)), *sub);
    }
    Ok(())
}
