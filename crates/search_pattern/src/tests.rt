use super::*;
use java_tree::{Limit, Rule, Text, What};
use std::test::Fail;

/// Texts that are no patterns, each with its cause.
const REFUSED: [(What, Limit, &str, &str); 44] = [
    (What::Field, Limit::Implementors, "f(", "wrong limit"),
    (What::Method, Limit::Implementors, "f", "wrong limit"),
    (What::Constructor, Limit::Implementors, "A", "wrong limit"),
    (What::Package, Limit::Implementors, "*", "wrong limit"),
    (What::Class, Limit::Reads, "", "wrong limit"),
    (What::Method, Limit::Reads, "f", "wrong limit"),
    (What::Constructor, Limit::Reads, "A", "wrong limit"),
    (What::Package, Limit::Reads, "q", "wrong limit"),
    (What::Class, Limit::Writes, "Map()x", "wrong limit"),
    (What::Method, Limit::Writes, "f", "wrong limit"),
    (What::Constructor, Limit::Writes, "A", "wrong limit"),
    (What::Package, Limit::Writes, "*", "wrong limit"),
    (
        What::Class,
        Limit::Implementors,
        ")Part",
        "bad parentheses at byte 0",
    ),
    (
        What::Class,
        Limit::All,
        "(A.NodeList",
        "bad parentheses at byte 0",
    ),
    (
        What::Class,
        Limit::References,
        "K(",
        "bad parentheses at byte 1",
    ),
    (What::Class, Limit::All, "X(,)", "bad parentheses at byte 1"),
    (
        What::Class,
        Limit::Implementors,
        "Key([])",
        "bad parentheses at byte 3",
    ),
    (
        What::Class,
        Limit::References,
        "Object.J())x",
        "bad parentheses at byte 8",
    ),
    (
        What::Class,
        Limit::References,
        "**deFil??r(int,)",
        "bad parentheses at byte 10",
    ),
    (
        What::Class,
        Limit::All,
        "java.lang.*)",
        "bad parentheses at byte 11",
    ),
    (What::Class, Limit::All, "É(", "bad parentheses at byte 2"),
    (What::Field, Limit::Reads, "f(", "bad parentheses at byte 1"),
    (
        What::Package,
        Limit::Declarations,
        "*(",
        "bad parentheses at byte 1",
    ),
    (
        What::Package,
        Limit::All,
        "p.*()(",
        "bad parentheses at byte 3",
    ),
    (What::Method, Limit::All, "f(", "bad parentheses at byte 2"),
    (What::Method, Limit::All, "É(A", "bad parentheses at byte 4"),
    (What::Method, Limit::All, "f)", "bad parentheses at byte 1"),
    (What::Method, Limit::All, "f)(", "bad parentheses at byte 1"),
    (What::Method, Limit::All, "f((", "bad parentheses at byte 2"),
    (
        What::Constructor,
        Limit::All,
        "A(a(b))",
        "bad parentheses at byte 3",
    ),
    (
        What::Method,
        Limit::All,
        "f()x",
        "bad parentheses at byte 3",
    ),
    (
        What::Method,
        Limit::All,
        "f())",
        "bad parentheses at byte 3",
    ),
    (
        What::Constructor,
        Limit::All,
        "A(int) ",
        "bad parentheses at byte 6",
    ),
    (What::Class, Limit::All, "", "empty part"),
    (What::Class, Limit::All, "  ", "empty part"),
    (What::Class, Limit::All, "p.", "empty part"),
    (What::Class, Limit::Implementors, ".L", "empty part"),
    (What::Class, Limit::All, " . ", "empty part"),
    (What::Package, Limit::All, " ", "empty part"),
    (What::Field, Limit::Writes, "A. ", "empty part"),
    (What::Method, Limit::All, "(int)", "empty part"),
    (What::Method, Limit::All, "f(int,)", "empty part"),
    (What::Method, Limit::All, "f(, A)", "empty part"),
    (What::Constructor, Limit::All, "A( , )", "empty part"),
];

/// Texts that are patterns, each with its qualification, its name and its parameters.
const READ: [(What, &str, Option<&str>, &str, Option<&[&str]>); 15] = [
    (What::Class, "A", None, "A", None),
    (What::Class, " p.q. A ", Some("p.q"), "A", None),
    (What::Class, "A..g", Some("A."), "g", None),
    (What::Field, "p.A.x", Some("p.A"), "x", None),
    (What::Package, "p.", None, "p.", None),
    (What::Package, " p.q ", None, "p.q", None),
    (What::Method, "f", None, "f", None),
    (What::Method, "f()", None, "f", Some(&[])),
    (What::Constructor, "A(  )", None, "A", Some(&[])),
    (What::Method, "f(p.)", None, "f", Some(&["p."])),
    (What::Method, "f(.A)", None, "f", Some(&[".A"])),
    (What::Method, "f([])", None, "f", Some(&["[]"])),
    (
        What::Method,
        "A.f(int, p.B[])",
        Some("A"),
        "f",
        Some(&["int", "p.B[]"]),
    ),
    (
        What::Method,
        "a . b ( c , d )",
        Some("a"),
        "b",
        Some(&["c", "d"]),
    ),
    (
        What::Constructor,
        "p.A(int)",
        Some("p"),
        "A",
        Some(&["int"]),
    ),
];

/// Whether a name matches a pattern, by a rule and by whether case counts.
const MATCHES: [(Rule, bool, &str, &str, bool); 49] = [
    (Rule::Camel, true, "NPE", "NullPointerException", true),
    (Rule::Camel, true, "NPE", "NoPermissionException", true),
    (Rule::Camel, true, "NPE", "nullPointer", false),
    (Rule::Camel, true, "NPE", "NPE2", true),
    (Rule::Camel, true, "NuPoEx", "NullPointerException", true),
    (Rule::Camel, true, "NuPoEx", "NoPermissionException", false),
    (Rule::Camel, true, "npe", "NullPointerException", false),
    (Rule::Camel, false, "npe", "NullPointerException", false),
    (Rule::Camel, true, "nP", "nullPointer", true),
    (Rule::Camel, true, "nP", "NullPointerException", false),
    (Rule::Camel, true, "NodFilt", "NodeFilter", true),
    (Rule::Camel, true, "NodFilt", "NodeFooFilter", false),
    (Rule::Camel, true, "NPE", "NullPointer", false),
    (Rule::Camel, true, "A", "A", true),
    (Rule::Camel, true, "AA", "A", false),
    (Rule::Camel, true, "É", "Été", true),
    (Rule::Wild, true, "N?ll*", "NullPointerException", true),
    (Rule::Wild, true, "N?ll*", "nullPointer", false),
    (Rule::Wild, false, "N?ll*", "nullPointer", true),
    (Rule::Wild, true, "N?ll", "NullPointerException", false),
    (Rule::Wild, true, "*", "A", true),
    (Rule::Wild, true, "**", "A", true),
    (Rule::Wild, true, "A*", "A", true),
    (Rule::Wild, true, "?", "é", true),
    (Rule::Wild, true, "??", "é", false),
    (Rule::Wild, true, "É?é", "Été", true),
    (Rule::Wild, false, "é?É", "Été", false),
    (Rule::Wild, true, "*ab*b", "aabcabb", true),
    (Rule::Wild, true, "*ab", "abab", true),
    (Rule::Wild, true, "a*ab", "ab", false),
    (Rule::Wild, true, "*b*a", "abab", false),
    (Rule::Wild, true, "Nod?", "Node", true),
    (Rule::Wild, true, "Nod?", "Nod", false),
    (Rule::Wild, true, "Nul*em", "NullItem", true),
    (Rule::Wild, false, "noDef?lTEr", "NodeFilter", true),
    (Rule::Wild, true, "p.*", "p.q.r", true),
    (Rule::Prefix, true, "null", "nullPointer", true),
    (Rule::Prefix, true, "null", "NullPointerException", false),
    (Rule::Prefix, false, "null", "NullPointerException", true),
    (Rule::Prefix, true, "NodeList", "Node", false),
    (Rule::Prefix, false, "é", "É", false),
    (Rule::Exact, false, "npe2", "NPE2", true),
    (Rule::Exact, true, "npe2", "NPE2", false),
    (Rule::Exact, true, "A", "AB", false),
    (Rule::Exact, true, "AB", "A", false),
    (Rule::Exact, false, "ÉTé", "Été", true),
    (Rule::Exact, false, "éTé", "Été", false),
    (Rule::Exact, false, "[", "{", false),
    (Rule::Exact, true, "*", "A", false),
];

#[test]
fn refused(rt: HostRuntime) -> Result<(), Fail> {
    for (what, limit, text, cause) in &REFUSED {
        let read = Pattern::read(rt.alloc(), text, *what, *limit, Rule::Exact, true);
        match read {
            Ok(_) => assert!(rt; false, "{text}"),
            Err(fault) => {
                let told = format!(in rt.alloc(); "{fault}")?;
                assert_eq!(rt; told.as_str(), *cause, "{text}");
            }
        }
    }
    Ok(())
}

fn same_params(params: Option<&[Text]>, expected: Option<&[&str]>) -> bool {
    match (params, expected) {
        (None, None) => true,
        (Some(params), Some(expected)) => {
            params.len() == expected.len() && params.iter().zip(expected).all(|(a, b)| a.is(b))
        }
        _ => false,
    }
}

#[test]
fn read(rt: HostRuntime) -> Result<(), Fail> {
    for (what, text, qualification, name, params) in &READ {
        let pattern = Pattern::read(rt.alloc(), text, *what, Limit::All, Rule::Wild, false)?;
        assert_eq!(rt; pattern.what(), *what, "{text}");
        assert_eq!(rt; pattern.limit(), Limit::All);
        assert_eq!(rt; pattern.rule(), Rule::Wild);
        assert!(rt; !pattern.case());
        assert_eq!(rt; pattern.name(), *name, "{text}");
        assert_eq!(rt; pattern.qualification(), *qualification, "{text}");
        assert!(rt; same_params(pattern.params(), *params), "{text}");
    }
    Ok(())
}

#[test]
fn matches(rt: HostRuntime) -> Result<(), Fail> {
    for (rule, case, text, name, expected) in &MATCHES {
        let pattern = Pattern::read(rt.alloc(), text, What::Package, Limit::All, *rule, *case)?;
        assert_eq!(rt; pattern.name_matches(name), *expected, "{text} {name}");
    }
    Ok(())
}
