ghost use Rattle.std.specs.Prelude.{◌<◌, ◌^◌, length};

use java_parse_expr::{ExprFault, Goal, Marked, ParsedExpr, parse_expr, primary, read_array};
use java_tree::{Expr, KEYWORDS, Span, Token, TokenKind, TokenText};
use jx_io::Steps;
use std::alloc::{AllocError, Global};
use std::test::Fail;

struct Looks;

/// Each list of tokens, which expressions are meant, and what is read at its first token: the form of the
/// expression, the place after it, the number of its bodies.
const READ: [(&[&str], Goal, &str); 13] = [
    (&["(", "a", ")", "-", "b", ";"], Goal::Any, "binary 5 0"),
    (&["(", "int", ")", "-", "1", ";"], Goal::Any, "cast 5 0"),
    (&["(", "a", ")", "b"], Goal::Any, "cast 4 0"),
    (
        &["a", "=", "b", "?", "c", ":", "d", ")"],
        Goal::Any,
        "assign 7 0",
    ),
    (
        &["a", "<", "b", "?", "c", ":", "d", "]"],
        Goal::Any,
        "conditional 7 0",
    ),
    (&["!", "a", "instanceof", "B", ","], Goal::Any, "binary 4 0"),
    (&["-", "a", "++"], Goal::Any, "prefix 3 0"),
    (
        &["new", "A", "(", ")", "{", "}", ";"],
        Goal::Any,
        "postfix 6 1",
    ),
    (&["a", "++", ";"], Goal::Statement, "postfix 2 0"),
    (&["a", ";"], Goal::Statement, "none"),
    (&["a", "+", ";"], Goal::Any, "none"),
    (&["a", "=", "b", "=", ";"], Goal::Any, "none"),
    (&[], Goal::Any, "none"),
];

/// How many parentheses stand around `a`, and what is read: an expression takes one of the 256 levels, and one more in
/// each of them.
const NESTED: [(usize, &str); 4] = [
    (254, "postfix 509 0"),
    (255, "postfix 511 0"),
    (256, "none"),
    (257, "none"),
];

fn kind_of(word: &str) -> TokenKind {
    match word.as_bytes() {
        [b'a'..=b'z' | b'A'..=b'Z', ..] => TokenKind::Identifier,
        [b'0'..=b'9', ..] => TokenKind::IntLit,
        _ => TokenKind::Symbol,
    }
}

fn is_keyword(word: &str) -> bool {
    let mut found = false;
    for keyword in KEYWORDS {
        if keyword == word {
            found = true;
        }
    }
    found
}

fn token_of(alloc: Global, word: &str) -> Result<Token, AllocError> {
    let kind = if is_keyword(word) {
        TokenKind::Keyword
    } else {
        kind_of(word)
    };
    Ok(Token {
        kind,
        name: TokenText::from_str(alloc, word)?,
        span: Span { start: 0, end: 1 },
    })
}

fn tokens_of(alloc: Global, words: &[&str]) -> Result<Vec<Token>, AllocError> {
    let mut tokens = Vec::new(alloc);
    for word in words {
        tokens.push(token_of(alloc, word)?)?;
    }
    Ok(tokens)
}

fn form(expr: &Expr) -> &'static str {
    match expr {
        Expr::Assign(..) => "assign",
        Expr::Conditional(..) => "conditional",
        Expr::Binary(..) => "binary",
        Expr::Prefix(..) => "prefix",
        Expr::Cast(..) => "cast",
        Expr::Postfix(..) => "postfix",
    }
}

/// `a` in so many parentheses.
fn nested(alloc: Global, count: usize) -> Result<Vec<Token>, AllocError> {
    let mut tokens = Vec::new(alloc);
    for _open in 0..count {
        tokens.push(token_of(alloc, "(")?)?;
    }
    tokens.push(token_of(alloc, "a")?)?;
    for _close in 0..count {
        tokens.push(token_of(alloc, ")")?)?;
    }
    Ok(tokens)
}

fn shown(alloc: Global, found: &Result<ParsedExpr, ExprFault>) -> Result<String, AllocError> {
    match found {
        Ok(parsed) => {
            let word = form(&parsed.expr);
            let next = parsed.next;
            let bodies = parsed.bodies.len();
            format!(in alloc; "{word} {next} {bodies}")
        }
        Err(ExprFault::NoExpr) => format!(in alloc; "none"),
        Err(ExprFault::NoMemory) => format!(in alloc; "memory"),
    }
}

fn outcome(alloc: Global, tokens: &[Token], goal: Goal) -> Result<String, AllocError>
    requires { length tokens.now < 2 ^ 32 }
{
    let mut steps = Steps::<Looks>::new();
    let found = parse_expr(alloc, tokens, 0, 0, goal, &mut steps);
    shown(alloc, &found)
}

/// Where the array initializer ends that begins at the first token.
fn array_outcome(alloc: Global, marked: &Marked<'_>) -> Result<String, AllocError> {
    match read_array(alloc, marked, 0, 0) {
        Ok(parsed) => {
            let next = parsed.next;
            format!(in alloc; "array {next}")
        }
        Err(ExprFault::NoExpr) => format!(in alloc; "none"),
        Err(ExprFault::NoMemory) => format!(in alloc; "memory"),
    }
}

#[test]
fn reads_expressions(rt: HostRuntime) -> Result<(), Fail> {
    for (words, goal, want) in READ {
        let tokens = tokens_of(rt.alloc(), words)?;
        assert!(rt; tokens.len() < 1000);
        let answer = outcome(rt.alloc(), tokens.as_slice(), goal)?;
        assert_eq!(rt; answer.as_str(), want, "of {words:?}");
    }
    for (count, want) in NESTED {
        let tokens = nested(rt.alloc(), count)?;
        assert!(rt; tokens.len() < 1000);
        let answer = outcome(rt.alloc(), tokens.as_slice(), Goal::Any)?;
        assert_eq!(rt; answer.as_str(), want, "of {count} parentheses");
    }
    Ok(())
}

#[test]
fn reads_an_array(rt: HostRuntime) -> Result<(), Fail> {
    let tokens = tokens_of(rt.alloc(), &["{", "a", ",", "{", "b", "}", ",", "}", ";"])?;
    assert_eq!(rt; tokens.len(), 9);
    let marked = Marked::of(rt.alloc(), tokens.as_slice())?;
    let answer = array_outcome(rt.alloc(), &marked)?;
    assert_eq!(rt; answer.as_str(), "array 8");
    Ok(())
}

#[test]
fn reads_the_primary_before_super(rt: HostRuntime) -> Result<(), Fail> {
    let tokens = tokens_of(rt.alloc(), &["a", ".", "b", ".", "super", "(", ")"])?;
    assert_eq!(rt; tokens.len(), 7);
    let marked = Marked::of(rt.alloc(), tokens.as_slice())?;
    assert_eq!(rt; marked.len(), 7);
    let mut steps = Steps::<Looks>::new();
    let found = primary(rt.alloc(), &marked, 0, 0, &mut steps)?;
    assert_eq!(rt; found.next, 3);
    Ok(())
}
