//! Occurrences from what they are made of.

ghost use Rattle.std.specs.Prelude.{◌≡◌, IfOk};
ghost use Rattle.java_model.specs.Names.Lists.{with_dots};
ghost use Rattle.java_model.specs.Outlines.{spelled_name};
ghost use Rattle.java_model.specs.Occurrences.References.{accuracy_of, occurrence, mention, whole_span, package_named};

use java_tree::{Access, Accuracy, Binding, Ident, OccKind, Occurrence, Span, Text};
use std::alloc::{AllocError, Global};

/// What is bound is accurate (JDT `SearchMatch.A_ACCURATE`).
fn accuracy_of(binding: &Binding) -> Accuracy
    ensures { result ≡ accuracy_of binding.now }
{
    match binding {
        Binding::Nothing => Accuracy::Inaccurate,
        _ => Accuracy::Accurate,
    }
}

/// An occurrence of a simple name.
pub(crate) fn occurrence(
    alloc: Global,
    kind: OccKind,
    span: Span,
    name: &str,
    count: u64,
    binding: Binding,
    access: Access,
) -> Result<Occurrence, AllocError>
    ensures { IfOk result (λ o. o ≡ occurrence kind span name.now count binding access) }
{
    let name = Text::from_str(alloc, name)?;
    let accuracy = accuracy_of(&binding);
    Ok(Occurrence {
        kind,
        span,
        name,
        count,
        binding,
        accuracy,
        access,
    })
}

/// An occurrence of an identifier that no access has.
pub(crate) fn mention(
    alloc: Global,
    kind: OccKind,
    i: &Ident,
    binding: Binding,
) -> Result<Occurrence, AllocError>
    ensures { IfOk result (λ o. o ≡ mention kind i.now binding) }
{
    let found = occurrence(
        alloc,
        kind,
        i.span,
        i.name.as_str(),
        0,
        binding,
        Access::NoAccess,
    )?;
    Ok(found)
}

/// From the first identifier to the last.
fn whole_span(name: &[Ident]) -> Span
    ensures { result ≡ whole_span name.now }
{
    match name {
        [] => Span { start: 0, end: 0 },
        [only] => Span {
            start: only.span.start,
            end: only.span.end,
        },
        [first, .., last] => Span {
            start: first.span.start,
            end: last.span.end,
        },
    }
}

/// A name with its dots (JLS 6.2).
fn with_dots(alloc: Global, name: &[Ident]) -> Result<Text, AllocError>
    ensures { IfOk result (λ t. t ≡ with_dots (spelled_name name.now)) }
{
    let mut dotted = String::new(alloc);
    let mut rest = name;
    while let [first, _, ..] = rest {
        dotted.push_str(first.name.as_str())?;
        dotted.push('.')?;
        rest = &rest[1..];
    }
    if let [last, ..] = rest {
        dotted.push_str(last.name.as_str())?;
    }
    Ok(Text::from_string(dotted))
}

/// The identifiers that name a package.
pub(crate) fn package_named(
    alloc: Global,
    kind: OccKind,
    run: &[Ident],
) -> Result<Occurrence, AllocError>
    ensures { IfOk result (λ o. o ≡ package_named kind run.now) }
{
    let name = with_dots(alloc, run)?;
    let dotted = name.copy(alloc)?;
    let binding = Binding::Package(dotted);
    let found = occurrence(
        alloc,
        kind,
        whole_span(run),
        name.as_str(),
        0,
        binding,
        Access::NoAccess,
    )?;
    Ok(found)
}
