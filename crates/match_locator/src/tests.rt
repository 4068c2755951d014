use super::*;
use java_tree::Limit::{All, Declarations, Implementors, References};
use java_tree::Rule::{Camel, Exact, Prefix, Wild};
use java_tree::What::{Class, Package};
use java_tree::*;
use java_types::{DeclaredTypes, EnvDocs};
use search_pattern::Pattern;
use std::alloc::{AllocError, Global};
use std::process::Abort;
use std::test::Fail;

fn a_type(
    alloc: Global,
    kind: TypeKind,
    local: bool,
    name: &str,
    parent: Option<u64>,
) -> Result<OutlineType, AllocError> {
    Ok(OutlineType {
        kind,
        local,
        name: Text::from_str(alloc, name)?,
        span: Span { start: 0, end: 1 },
        modifiers: 0,
        parent,
        locals: Items::new(alloc),
        extends: Items::new(alloc),
        implements: Items::new(alloc),
        fields: Items::new(alloc),
        methods: Items::new(alloc),
        constructors: Items::new(alloc),
    })
}

/// `A` of `p.q`, its member `B`, a local class `L` in that and an anonymous class in that.
fn nested(alloc: Global) -> Result<Outline, AllocError> {
    let mut types = Items::new(alloc);
    types.push(a_type(alloc, TypeKind::Class, false, "A", None)?)?;
    types.push(a_type(alloc, TypeKind::Interface, false, "B", Some(0))?)?;
    types.push(a_type(alloc, TypeKind::Class, true, "L", Some(1))?)?;
    types.push(a_type(alloc, TypeKind::Anonymous, false, "", Some(2))?)?;
    let mut package = Items::new(alloc);
    package.push(Text::from_str(alloc, "p")?)?;
    package.push(Text::from_str(alloc, "q")?)?;
    let imports = Items::new(alloc);
    Ok(Outline {
        package,
        imports,
        types,
    })
}

fn doc_name(rt: &impl Abort, alloc: Global) -> Result<DocName, AllocError> {
    let container = Text::from_str(alloc, "src")?;
    let path = Text::from_str(alloc, "A.java")?;
    assert!(rt; is_container(container.as_str()));
    assert!(rt; is_source_path(path.as_str()));
    Ok(DocName {
        container,
        path,
        version: 0,
        stamp: 0,
    })
}

fn one_document(rt: &impl Abort, alloc: Global) -> Result<DeclaredTypes, AllocError> {
    let name = doc_name(rt, alloc)?;
    let mut docs = EnvDocs::new(alloc);
    assert!(rt; docs.takes(&name));
    let outline = nested(alloc)?;
    docs.add(alloc, &name, &outline)?;
    DeclaredTypes::of(alloc, docs)
}

/// Occurrences by their starts, kinds and names, and the types that they are bound to.
const FOUND: [(u32, OccKind, &str, Option<u64>); 14] = [
    (0, OccKind::PackageDecl, "p.q", None),
    (1, OccKind::PackageRef, "java", None),
    (2, OccKind::TypeDecl, "A", Some(0)),
    (3, OccKind::TypeDecl, "B", Some(1)),
    (4, OccKind::TypeDecl, "L", Some(2)),
    (5, OccKind::TypeRef, "A", Some(0)),
    (6, OccKind::Super, "B", Some(1)),
    (7, OccKind::Super, "Gone", None),
    (8, OccKind::TypeRef, "Gone", None),
    (9, OccKind::NameRef, "Gone", None),
    (10, OccKind::TypeDecl, "", Some(3)),
    (11, OccKind::TypeRef, "Object", Some(4)),
    (12, OccKind::FieldDecl, "A", None),
    (13, OccKind::TypeRef, "A", Some(99)),
];

fn bound(alloc: Global, kind: OccKind, name: &str) -> Result<Binding, AllocError> {
    match kind {
        OccKind::PackageDecl | OccKind::PackageRef => {
            Ok(Binding::Package(Text::from_str(alloc, name)?))
        }
        OccKind::FieldDecl => Ok(Binding::Field(FieldId {
            of: TypeId(0),
            place: 0,
        })),
        _ => Ok(Binding::Nothing),
    }
}

fn occurrences(alloc: Global) -> Result<Items<Occurrence>, AllocError> {
    let mut occurrences = Items::new(alloc);
    for (start, kind, name, of) in &FOUND {
        let binding = match of {
            Some(id) => Binding::Class(TypeId(*id)),
            None => bound(alloc, *kind, name)?,
        };
        occurrences.push(Occurrence {
            kind: *kind,
            span: Span {
                start: *start,
                end: 99,
            },
            name: Text::from_str(alloc, name)?,
            count: 0,
            binding,
            accuracy: Accuracy::Accurate,
            access: Access::NoAccess,
        })?;
    }
    Ok(occurrences)
}

/// Searches, each with the starts of the occurrences that match.
const SEARCHES: [(What, Limit, Rule, bool, &str, &[u32]); 18] = [
    (Class, All, Exact, true, "A", &[2, 5]),
    (Class, Implementors, Exact, true, "B", &[6]),
    (Class, Implementors, Prefix, true, "G", &[7]),
    (Class, References, Exact, true, "x.Gone", &[8, 9]),
    (Class, All, Exact, true, "p.q.A", &[2, 5]),
    (Class, All, Camel, true, "q.A", &[2, 5]),
    (Class, All, Exact, true, "p.A", &[]),
    (Class, Declarations, Exact, true, "q.A.B", &[3]),
    (Class, Declarations, Wild, true, "p.*.B", &[3]),
    (Class, Declarations, Wild, true, "q.*", &[]),
    (Class, Declarations, Wild, true, "*", &[2, 3, 4, 10]),
    (Class, Declarations, Exact, true, "B.L", &[]),
    (Class, Declarations, Exact, false, "Q.a", &[2]),
    (Class, All, Exact, true, "lang.Object", &[11]),
    (Package, Declarations, Exact, true, "p.q", &[0]),
    (Package, Declarations, Exact, true, "q", &[]),
    (Package, All, Prefix, true, "p", &[0]),
    (Package, References, Wild, true, "j*", &[1]),
];

fn begin_at(matches: &[Match], expected: &[u32]) -> bool {
    matches.len() == expected.len()
        && matches
            .iter()
            .zip(expected)
            .all(|(found, start)| found.span.start == *start)
}

/// Whether a search finds just what begins at these places, and in the document.
fn finds(
    alloc: Global,
    env: &DeclaredTypes,
    occurrences: &[Occurrence],
    pattern: &Pattern,
    starts: &[u32],
) -> Result<bool, AllocError> {
    if !is_for_types(pattern.what()) || !have_bindings_by_kind(occurrences) {
        return Ok(false);
    }
    let container = Text::from_str(alloc, "src")?;
    let path = Text::from_str(alloc, "A.java")?;
    let doc = DocPath { container, path };
    let matches = locate(alloc, pattern, env, occurrences, &doc)?;
    Ok(begin_at(matches.as_slice(), starts) && matches.iter().all(|found| found.path.is("A.java")))
}

#[test]
fn types_and_packages_are_found(rt: HostRuntime) -> Result<(), Fail> {
    let alloc = rt.alloc();
    let env = one_document(&rt, alloc)?;
    let occurrences = occurrences(alloc)?;
    for (what, limit, rule, case, text, starts) in &SEARCHES {
        let pattern = Pattern::read(alloc, text, *what, *limit, *rule, *case)?;
        let found = finds(alloc, &env, occurrences.as_slice(), &pattern, starts)?;
        assert!(rt; found, "{text}");
    }
    Ok(())
}
