ghost use Rattle.std.specs.Prelude.{◌≡◌, ◌++◌, string_bytes, OnOk, codes};
ghost use Rattle.std.specs.Fmt.{decimal};
ghost use Rattle.std.specs.List.{flat_map};
ghost use Rattle.java_model.specs.OutputText.{kind_word, accuracy_word, match_line};

use itoa::Buffer;
use java_tree::{Access, Accuracy, Match, OccKind};
use std::alloc::AllocError;

/// How a kind of occurrence is printed; a field by how it is used.
fn kind_word(kind: OccKind, access: Access) -> &'static str
    ensures { result.now ≡ kind_word kind access }
{
    match kind {
        OccKind::PackageDecl => "package-decl",
        OccKind::PackageRef => "package-ref",
        OccKind::TypeDecl => "type-decl",
        OccKind::TypeRef => "type-ref",
        OccKind::Super => "super-ref",
        OccKind::MethodDecl => "method-decl",
        OccKind::MethodRef => "method-ref",
        OccKind::CtorDecl => "ctor-decl",
        OccKind::CtorRef => "ctor-ref",
        OccKind::FieldDecl => "field-decl",
        OccKind::FieldRef => match access {
            Access::Write => "field-write",
            Access::Update => "field-update",
            Access::NoAccess | Access::Read => "field-read",
        },
        OccKind::NameRef => "name-ref",
    }
}

/// How it is printed whether an occurrence is bound.
fn accuracy_word(accuracy: Accuracy) -> &'static str
    ensures { result.now ≡ accuracy_word accuracy }
{
    match accuracy {
        Accuracy::Accurate => "accurate",
        Accuracy::Inaccurate => "inaccurate",
    }
}

/// Appends a number in digits.
pub(crate) fn push_number(out: &mut String, n: u64) -> Result<(), AllocError>
    ensures { OnOk result (string_bytes out.new ≡ string_bytes out.old ++ decimal n) }
{
    out.push_str(Buffer::new().format(n))
}

/// Appends a space and a word.
fn push_word(out: &mut String, word: &str) -> Result<(), AllocError>
    ensures { OnOk result (string_bytes out.new ≡ string_bytes out.old ++ codes " " ++ word.now) }
{
    out.push_str(" ")?;
    out.push_str(word)
}

/// Appends a space and a number in digits.
fn push_field(out: &mut String, n: u64) -> Result<(), AllocError>
    ensures { OnOk result (string_bytes out.new ≡ string_bytes out.old ++ codes " " ++ decimal n) }
{
    out.push_str(" ")?;
    push_number(out, n)
}

/// Appends the line of a match.
fn push_match(out: &mut String, found: &Match) -> Result<(), AllocError>
    ensures { OnOk result (string_bytes out.new ≡ string_bytes out.old ++ match_line found.now) }
{
    push_word(out, found.container.as_str())?;
    push_word(out, found.path.as_str())?;
    push_field(out, u64::from(found.span.start))?;
    push_field(out, u64::from(found.span.len()))?;
    push_word(out, kind_word(found.kind, found.access))?;
    push_word(out, accuracy_word(found.accuracy))?;
    out.push_str("\n")
}

/// Appends the lines of matches.
pub(crate) fn push_matches(out: &mut String, matches: &[Match]) -> Result<(), AllocError>
    ensures { OnOk result (string_bytes out.new ≡ string_bytes out.old ++ flat_map match_line matches.now) }
{
    for found in matches {
        push_match(out, found)?;
    }
    Ok(())
}
