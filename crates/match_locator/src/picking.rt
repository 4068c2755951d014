//! The kinds of occurrences that a search looks for (JDT `IJavaSearchConstants`).

ghost use Rattle.std.specs.Prelude.{◌≡◌};
ghost use Rattle.java_model.specs.Matches.Fits.{is_declaration, is_reference, is_super, picks, reads, writes};

use java_tree::{Access, Limit, OccKind, What};

fn is_declaration(what: What, kind: OccKind) -> bool
    ensures { result ≡ is_declaration what kind }
{
    match what {
        What::Class => matches!(kind, OccKind::TypeDecl),
        What::Method => matches!(kind, OccKind::MethodDecl),
        What::Constructor => matches!(kind, OccKind::CtorDecl),
        What::Field => matches!(kind, OccKind::FieldDecl),
        What::Package => matches!(kind, OccKind::PackageDecl),
    }
}

fn is_reference(what: What, kind: OccKind) -> bool
    ensures { result ≡ is_reference what kind }
{
    match what {
        What::Class => matches!(kind, OccKind::TypeRef | OccKind::NameRef),
        What::Method => matches!(kind, OccKind::MethodRef),
        What::Constructor => matches!(kind, OccKind::CtorRef),
        What::Field => matches!(kind, OccKind::FieldRef | OccKind::NameRef),
        What::Package => matches!(kind, OccKind::PackageRef),
    }
}

fn is_super(what: What, kind: OccKind) -> bool
    ensures { result ≡ is_super what kind }
{
    matches!(what, What::Class) && matches!(kind, OccKind::Super)
}

fn reads(access: Access) -> bool
    ensures { result ≡ reads access }
{
    matches!(access, Access::Read | Access::Update)
}

fn writes(access: Access) -> bool
    ensures { result ≡ writes access }
{
    matches!(access, Access::Write | Access::Update)
}

/// Whether a search looks for occurrences of this kind and use.
pub(crate) fn picks(what: What, limit: Limit, kind: OccKind, access: Access) -> bool
    ensures { result ≡ picks what limit kind access }
{
    match limit {
        Limit::Declarations => is_declaration(what, kind),
        Limit::References => is_reference(what, kind),
        Limit::Implementors => is_super(what, kind),
        Limit::All => is_declaration(what, kind) || is_reference(what, kind),
        Limit::Reads => matches!(what, What::Field) && is_reference(what, kind) && reads(access),
        Limit::Writes => {
            matches!(what, What::Field) && matches!(kind, OccKind::FieldRef) && writes(access)
        }
    }
}
