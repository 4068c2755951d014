use super::*;
use java_tree::*;
use std::alloc::{AllocError, Global};
use std::process::Abort;
use std::test::Fail;

const NOWHERE: Span = Span { start: 0, end: 1 };

fn ident(alloc: Global, word: &str) -> Result<Ident, AllocError> {
    let name = Text::from_str(alloc, word)?;
    Ok(Ident {
        name,
        span: NOWHERE,
    })
}

fn name(alloc: Global, word: &str) -> Result<Name, AllocError> {
    let mut name = Items::new(alloc);
    name.push(ident(alloc, word)?)?;
    Ok(name)
}

fn variable(alloc: Global, word: &str) -> Result<Boxed<Expr>, AllocError> {
    let first = First::Name(name(alloc, word)?);
    let primary = Primary {
        first,
        selectors: Items::new(alloc),
    };
    Boxed::new(alloc, Expr::Postfix(primary, Items::new(alloc)))
}

fn block(alloc: Global) -> Result<Boxed<Stmt>, AllocError> {
    let block = Block {
        brace: 20,
        statements: Items::new(alloc),
    };
    Boxed::new(alloc, Stmt::Block(block))
}

/// `if (a) ; else {}`
fn choice(alloc: Global) -> Result<Stmt, AllocError> {
    let condition = variable(alloc, "a")?;
    let mut arms = Items::new(alloc);
    arms.push(IfArm {
        condition,
        then: Stmt::Empty,
    })?;
    let last = block(alloc)?;
    Ok(Stmt::If(arms, Some(last)))
}

/// `{ if (a) ; else {} class C {} }`
fn initializer(alloc: Global) -> Result<Member, AllocError> {
    let mut statements = Items::new(alloc);
    statements.push(BlockStatement::Statement(choice(alloc)?))?;
    statements.push(BlockStatement::LocalClass(30))?;
    Ok(Member::Initializer(
        false,
        Block {
            brace: 10,
            statements,
        },
    ))
}

fn class(
    alloc: Global,
    word: &str,
    place: TypePlace,
    brace: u32,
    extends: Option<Name>,
    members: Items<Member>,
) -> Result<TypeDecl, AllocError> {
    let name = ident(alloc, word)?;
    let head = TypeHead::Class(ClassHead {
        modifiers: Items::new(alloc),
        name,
        extends,
        implements: Items::new(alloc),
    });
    Ok(TypeDecl {
        parent: None,
        place,
        head,
        brace,
        members,
    })
}

fn classes(alloc: Global) -> Result<Items<TypeDecl>, AllocError> {
    let mut members = Items::new(alloc);
    members.push(initializer(alloc)?)?;
    let extends = Some(name(alloc, "B")?);
    let mut types = Items::new(alloc);
    types.push(class(alloc, "A", TypePlace::TopLevel, 9, extends, members)?)?;
    types.push(class(alloc, "C", TypePlace::Local, 30, None, Items::new(alloc))?)?;
    Ok(types)
}

/// `; class A extends B { { if (a) ; else {} class C {} } }`
fn a_unit(alloc: Global) -> Result<Unit, AllocError> {
    let mut declarations = Items::new(alloc);
    declarations.push(TopLevel::Empty)?;
    declarations.push(TopLevel::Type(9))?;
    Ok(Unit {
        package: None,
        imports: Items::new(alloc),
        declarations,
        types: classes(alloc)?,
    })
}

fn kind(node: Option<Node<'_>>) -> &'static str {
    match node {
        Some(Node::Unit(_)) => "unit",
        Some(Node::Declaration(_)) => "declaration",
        Some(Node::Supertype(_, _)) => "supertype",
        Some(Node::Body(_)) => "body",
        Some(Node::Member(_, _)) => "member",
        Some(Node::Block(_)) => "block",
        Some(Node::Statement(_)) => "statement",
        Some(Node::Arm(_)) => "arm",
        Some(Node::Expression(_, _)) => "expression",
        Some(_) => "other",
        None => "none",
    }
}

fn holds_types(rt: &impl Abort, tree: &Tree<'_>) {
    assert_eq!(rt; kind(tree.node_at(&[])), "unit");
    assert_eq!(rt; kind(tree.node_at(&[0])), "declaration");
    assert_eq!(rt; kind(tree.node_at(&[1])), "none");
    assert_eq!(rt; kind(tree.node_at(&[0, 0])), "supertype");
    assert_eq!(rt; kind(tree.node_at(&[0, 1])), "body");
    assert_eq!(rt; kind(tree.node_at(&[0, 1, 0])), "member");
}

fn holds_statements(rt: &impl Abort, tree: &Tree<'_>) {
    assert_eq!(rt; kind(tree.node_at(&[0, 1, 0, 0])), "block");
    assert_eq!(rt; kind(tree.node_at(&[0, 1, 0, 0, 0, 0])), "arm");
    assert_eq!(rt; kind(tree.node_at(&[0, 1, 0, 0, 0, 0, 0])), "expression");
    assert_eq!(rt; kind(tree.node_at(&[0, 1, 0, 0, 0, 1])), "statement");
    assert_eq!(rt; kind(tree.node_at(&[0, 1, 0, 0, 1])), "declaration");
    assert_eq!(rt; kind(tree.node_at(&[0, 1, 0, 0, 1, 0])), "body");
    assert_eq!(rt; kind(tree.node_at(&[0, 1, 0, 0, 2])), "none");
}

#[test]
fn leads_to_each_node(rt: HostRuntime) -> Result<(), Fail> {
    let alloc = rt.alloc();
    let unit = a_unit(alloc)?;
    let tree = Tree::of(alloc, &unit)?;
    holds_types(&rt, &tree);
    holds_statements(&rt, &tree);
    Ok(())
}
