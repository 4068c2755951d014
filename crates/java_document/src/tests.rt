use super::*;
use java_tree::{
    ImportName, Items, Level, Outline, OutlineField, OutlineMethod, OutlineType, SpelledType, Text,
    TypeKind, Unit, is_container, is_name,
};
use jx_io::Steps;
use std::alloc::{AllocError, Global};
use std::test::*;

struct Reads;

/// Each text, and its outline: the package, the imports, and the types one after another. A type is its kind (`C`
/// class, `I` interface, `N` anonymous class, and `L` after it where it is local) with its name, the span of the name,
/// the modifiers, the parent, the local classes in scope, what it extends and implements, its fields, methods and
/// constructors.
const OUTLINES: [(&str, &str); 25] = [
    ("", "||"),
    (
        "package a.b;import c.D;import e.*;class A{};",
        "a.b|c.D,e.*|C:A 40-41 0 - [] [] [] [] [] []; ",
    ),
    (
        "public class A{static class B{class C{}}interface D{}}interface E{}",
        "||C:A 13-14 32 - [] [] [] [] [] []; C:B 28-29 64 0 [] [] [] [] [] []; C:C 36-37 0 1 [] [] [] [] [] []; I:D 50-51 0 0 [] [] [] [] [] []; I:E 64-65 0 - [] [] [] [] [] []; ",
    ),
    (
        "interface A{class B{}}class C{interface D{class E{}}}",
        "||I:A 10-11 0 - [] [] [] [] [] []; C:B 18-19 0 0 [] [] [] [] [] []; C:C 28-29 0 - [] [] [] [] [] []; I:D 40-41 0 2 [] [] [] [] [] []; C:E 48-49 0 3 [] [] [] [] [] []; ",
    ),
    (
        "class A{void f(){class B{}class C{void g(){class D{}class E{}}class F{}}}}",
        "||C:A 6-7 0 - [] [] [] [] [f() void 0] []; CL:B 23-24 0 0 [] [] [] [] [] []; CL:C 32-33 0 0 [1] [] [] [] [g() void 0] []; CL:D 49-50 0 2 [2,1] [] [] [] [] []; CL:E 58-59 0 2 [3,2,1] [] [] [] [] []; C:F 68-69 0 2 [] [] [] [] [] []; ",
    ),
    (
        "class A{void f(){class B{}class C{}new D(){};}}",
        "||C:A 6-7 0 - [] [] [] [] [f() void 0] []; CL:B 23-24 0 0 [] [] [] [] [] []; CL:C 32-33 0 0 [1] [] [] [] [] []; N: 39-40 0 0 [2,1] [D] [] [] [] []; ",
    ),
    (
        "class A{A(){{class B{}}class C{}}void f(){class D{}}}",
        "||C:A 6-7 0 - [] [] [] [] [f() void 0] [A() void 0]; CL:B 19-20 0 0 [] [] [] [] [] []; CL:C 29-30 0 0 [] [] [] [] [] []; CL:D 48-49 0 0 [] [] [] [] [] []; ",
    ),
    (
        "class A{void f(){switch(1){case 1:class B{}case 2:class C{}}class D{}}}",
        "||C:A 6-7 0 - [] [] [] [] [f() void 0] []; CL:B 40-41 0 0 [] [] [] [] [] []; CL:C 56-57 0 0 [1] [] [] [] [] []; CL:D 66-67 0 0 [] [] [] [] [] []; ",
    ),
    (
        "class A{Object a=new b.C(){int d;};}",
        "||C:A 6-7 0 - [] [] [] [a Object 0] [] []; N: 23-24 0 0 [] [b.C] [] [d int 0] [] []; ",
    ),
    (
        "class A{Object a=new B(new C(){}){Object b=new D(){};};}",
        "||C:A 6-7 0 - [] [] [] [a Object 0] [] []; N: 27-28 0 0 [] [C] [] [] [] []; N: 21-22 0 0 [] [B] [] [b Object 0] [] []; N: 47-48 0 2 [] [D] [] [] [] []; ",
    ),
    (
        "class A{A(){this(new B(){});}A(B b){new C(){}.super(b);}}",
        "||C:A 6-7 0 - [] [] [] [] [] [A() void 0,A(B) void 0]; N: 21-22 0 0 [] [B] [] [] [] []; N: 40-41 0 0 [] [C] [] [] [] []; ",
    ),
    (
        "class A{void f(){class B{Object g(){return new B(){};}}new B(){};}}",
        "||C:A 6-7 0 - [] [] [] [] [f() void 0] []; CL:B 23-24 0 0 [] [] [] [] [g() Object 0] []; N: 47-48 0 1 [1] [B] [] [] [] []; N: 59-60 0 0 [1] [B] [] [] [] []; ",
    ),
    (
        "abstract interface I extends a.J,K{int x=1,y[]={};int f()[];}",
        "||I:I 19-20 1 - [] [a.J,K] [] [x int 0,y int[] 0] [f() int[] 0] []; ",
    ),
    (
        "final strictfp class A extends B implements C,d.E{static final int[]a,b[];protected abstract int[]f(final int a,d.E b[])[][];private A(A a){}native void g();}",
        "||C:A 21-22 130 - [] [B] [C,d.E] [a int[] 66,b int[][] 66] [f(int,d.E[]) int[][][] 17,g() void 4] [A(A) void 8]; ",
    ),
    (
        "public public class A{transient volatile a.B c;synchronized public double f(){}}",
        "||C:A 20-21 32 - [] [] [] [c a.B 1536] [f() double 288] []; ",
    ),
    (
        "class \\u0041 extends \\u0042{}",
        "||C:A 6-12 0 - [] [B] [] [] [] []; ",
    ),
    (
        "class A{void f(){class B{class C{Object c=new D(){};}}}}",
        "||C:A 6-7 0 - [] [] [] [] [f() void 0] []; CL:B 23-24 0 0 [] [] [] [] [] []; C:C 31-32 0 1 [] [] [] [c Object 0] [] []; N: 46-47 0 2 [1] [D] [] [] [] []; ",
    ),
    (
        "class A{{class B{}new C(){void f(){class D{}}};}}",
        "||C:A 6-7 0 - [] [] [] [] [] []; CL:B 15-16 0 0 [] [] [] [] [] []; N: 22-23 0 0 [1] [C] [] [] [f() void 0] []; CL:D 41-42 0 2 [1] [] [] [] [] []; ",
    ),
    (
        "class A{void f(){for(int i=g(new B(){});h(new C(){});i(new D(){}))a:if(new E(){}==j)do{}while(new F(){}==j);else if(k)while(new G(){}==j){class H{}}else throw new I(){};assert l:new J(){};}}",
        "||C:A 6-7 0 - [] [] [] [] [f() void 0] []; N: 33-34 0 0 [] [B] [] [] [] []; N: 46-47 0 0 [] [C] [] [] [] []; N: 59-60 0 0 [] [D] [] [] [] []; N: 75-76 0 0 [] [E] [] [] [] []; N: 98-99 0 0 [] [F] [] [] [] []; N: 128-129 0 0 [] [G] [] [] [] []; CL:H 144-145 0 0 [] [] [] [] [] []; N: 163-164 0 0 [] [I] [] [] [] []; N: 182-183 0 0 [] [J] [] [] [] []; ",
    ),
    (
        "class A{static{try{class B{}}catch(C c){class D{}new B(){};}finally{synchronized(new E(){}){class F{}}class G{}}switch(new H(){}.h){case i(new I(){}):}}Object j=new J(){};}",
        "||C:A 6-7 0 - [] [] [] [j Object 0] [] []; CL:B 25-26 0 0 [] [] [] [] [] []; CL:D 46-47 0 0 [] [] [] [] [] []; N: 53-54 0 0 [2] [B] [] [] [] []; N: 85-86 0 0 [] [E] [] [] [] []; CL:F 98-99 0 0 [] [] [] [] [] []; CL:G 108-109 0 0 [] [] [] [] [] []; N: 123-124 0 0 [] [H] [] [] [] []; N: 143-144 0 0 [] [I] [] [] [] []; N: 165-166 0 0 [] [J] [] [] [] []; ",
    ),
    (
        "class A{int a[]={b(new B(){}),c[new C(){}.d],{new int[e(new D(){})]}};Object e=f?(g)new E(){}:h instanceof F==!new G(){}.new H(){}.k(super.l(new J(){}));{a=(new K(){});}}",
        "||C:A 6-7 0 - [] [] [] [a int[] 0,e Object 0] [] []; N: 23-24 0 0 [] [B] [] [] [] []; N: 36-37 0 0 [] [C] [] [] [] []; N: 60-61 0 0 [] [D] [] [] [] []; N: 88-89 0 0 [] [E] [] [] [] []; N: 115-116 0 0 [] [G] [] [] [] []; N: 125-126 0 0 [] [H] [] [] [] []; N: 145-146 0 0 [] [J] [] [] [] []; N: 161-162 0 0 [] [K] [] [] [] []; ",
    ),
    ("class A{", "no outline"),
    ("class A{#}", "no outline"),
    ("class A{int assert;}", "no outline"),
    (
        "class A{void f(){assert new B(){};}}",
        "||C:A 6-7 0 - [] [] [] [] [f() void 0] []; N: 28-29 0 0 [] [B] [] [] [] []; ",
    ),
];

/// Texts of Java 1.3, in which `assert` is a name.
const BEFORE_ASSERT: [(&str, &str); 2] = [
    (
        "class A{int assert;}",
        "||C:A 6-7 0 - [] [] [] [assert int 0] [] []; ",
    ),
    ("class A{void f(){assert new B(){};}}", "no outline"),
];

/// Each path and text, and what is read: the level, the path, the length of the text, how many types its unit has, and
/// the outline.
const READ: [(&str, &str, &str); 6] = [
    (
        "A.java",
        "class A{}",
        "14 A.java 9 1 ||C:A 6-7 0 - [] [] [] [] [] []; ",
    ),
    ("a/b.java", "class A{", "14 a/b.java 8 no unit, no outline"),
    (".java", "", "14 .java 0 0 ||"),
    ("A.jav", "class A{}", "not a source"),
    ("A.java.txt", "class A{", "not a source"),
    ("java", "", "not a source"),
];

/// Puts one more to those before, after a comma.
fn put(out: &mut String, one: &str) -> Result<(), AllocError> {
    if !out.is_empty() {
        out.push_str(",")?;
    }
    out.push_str(one)
}

fn name_shown(alloc: Global, name: &[Text]) -> Result<String, AllocError> {
    let mut out = String::new(alloc);
    for word in name {
        if !out.is_empty() {
            out.push_str(".")?;
        }
        out.push_str(word.as_str())?;
    }
    Ok(out)
}

fn names_shown(alloc: Global, names: &[Items<Text>]) -> Result<String, AllocError> {
    let mut out = String::new(alloc);
    for name in names {
        put(&mut out, name_shown(alloc, name.as_slice())?.as_str())?;
    }
    Ok(out)
}

fn numbers_shown(alloc: Global, numbers: &[u64]) -> Result<String, AllocError> {
    let mut out = String::new(alloc);
    for number in numbers {
        put(&mut out, format!(in alloc; "{number}")?.as_str())?;
    }
    Ok(out)
}

fn type_shown(alloc: Global, of: &SpelledType) -> Result<String, AllocError> {
    let mut out = name_shown(alloc, of.name.as_slice())?;
    for _ in 0..of.dims {
        out.push_str("[]")?;
    }
    Ok(out)
}

fn fields_shown(alloc: Global, fields: &[OutlineField]) -> Result<String, AllocError> {
    let mut out = String::new(alloc);
    for field in fields {
        let of = type_shown(alloc, &field.of)?;
        let name = field.name.as_str();
        let of = of.as_str();
        let modifiers = field.modifiers;
        put(
            &mut out,
            format!(in alloc; "{name} {of} {modifiers}")?.as_str(),
        )?;
    }
    Ok(out)
}

fn types_shown(alloc: Global, types: &[SpelledType]) -> Result<String, AllocError> {
    let mut out = String::new(alloc);
    for of in types {
        put(&mut out, type_shown(alloc, of)?.as_str())?;
    }
    Ok(out)
}

fn methods_shown(alloc: Global, methods: &[OutlineMethod]) -> Result<String, AllocError> {
    let mut out = String::new(alloc);
    for method in methods {
        let params = types_shown(alloc, method.params.as_slice())?;
        let of = type_shown(alloc, &method.result)?;
        let name = method.name.as_str();
        let params = params.as_str();
        let of = of.as_str();
        let modifiers = method.modifiers;
        put(
            &mut out,
            format!(in alloc; "{name}({params}) {of} {modifiers}")?.as_str(),
        )?;
    }
    Ok(out)
}

fn kind_letter(kind: TypeKind) -> &'static str {
    match kind {
        TypeKind::Class => "C",
        TypeKind::Interface => "I",
        TypeKind::Anonymous => "N",
    }
}

fn parent_shown(alloc: Global, parent: Option<u64>) -> Result<String, AllocError> {
    match parent {
        Some(number) => format!(in alloc; "{number}"),
        None => format!(in alloc; "-"),
    }
}

fn head_shown(alloc: Global, of: &OutlineType) -> Result<String, AllocError> {
    let parent = parent_shown(alloc, of.parent)?;
    let kind = kind_letter(of.kind);
    let local = if of.local { "L" } else { "" };
    let name = of.name.as_str();
    let start = of.span.start;
    let end = of.span.end;
    let modifiers = of.modifiers;
    let parent = parent.as_str();
    format!(in alloc; "{kind}{local}:{name} {start}-{end} {modifiers} {parent}")
}

fn listed(alloc: Global, list: &str) -> Result<String, AllocError> {
    format!(in alloc; " [{list}]")
}

fn one_type(alloc: Global, of: &OutlineType) -> Result<String, AllocError> {
    let mut out = head_shown(alloc, of)?;
    let locals = numbers_shown(alloc, of.locals.as_slice())?;
    out.push_str(listed(alloc, locals.as_str())?.as_str())?;
    let extends = names_shown(alloc, of.extends.as_slice())?;
    out.push_str(listed(alloc, extends.as_str())?.as_str())?;
    let implements = names_shown(alloc, of.implements.as_slice())?;
    out.push_str(listed(alloc, implements.as_str())?.as_str())?;
    let fields = fields_shown(alloc, of.fields.as_slice())?;
    out.push_str(listed(alloc, fields.as_str())?.as_str())?;
    let methods = methods_shown(alloc, of.methods.as_slice())?;
    out.push_str(listed(alloc, methods.as_str())?.as_str())?;
    let constructors = methods_shown(alloc, of.constructors.as_slice())?;
    out.push_str(listed(alloc, constructors.as_str())?.as_str())?;
    out.push_str("; ")?;
    Ok(out)
}

fn imports_shown(alloc: Global, imports: &[ImportName]) -> Result<String, AllocError> {
    let mut out = String::new(alloc);
    for import in imports {
        let name = name_shown(alloc, import.name.as_slice())?;
        put(&mut out, name.as_str())?;
        if import.star {
            out.push_str(".*")?;
        }
    }
    Ok(out)
}

fn outline_shown(alloc: Global, outline: &Outline) -> Result<String, AllocError> {
    let mut out = name_shown(alloc, outline.package.as_slice())?;
    let imports = imports_shown(alloc, outline.imports.as_slice())?;
    out.push_str("|")?;
    out.push_str(imports.as_str())?;
    out.push_str("|")?;
    for of in outline.types.as_slice() {
        out.push_str(one_type(alloc, of)?.as_str())?;
    }
    Ok(out)
}

fn shown(alloc: Global, outline: &Option<Outline>) -> Result<String, AllocError> {
    match outline {
        Some(outline) => outline_shown(alloc, outline),
        None => format!(in alloc; "no outline"),
    }
}

fn fault_word(alloc: Global, fault: &DocFault) -> Result<String, AllocError> {
    match fault {
        DocFault::NotSource => format!(in alloc; "not a source"),
        DocFault::TooLong => format!(in alloc; "too long"),
        DocFault::NoMemory => format!(in alloc; "memory"),
    }
}

/// The outline of a text.
fn outcome(alloc: Global, level: Level, text: &str) -> Result<String, AllocError> {
    let container = Text::from_str(alloc, "src")?;
    let path = Text::from_str(alloc, "A.java")?;
    let text = Text::from_str(alloc, text)?;
    if !is_container(container.as_str()) || !is_name(path.as_str()) {
        return format!(in alloc; "no name");
    }
    let mut steps: Steps<Reads> = Steps::new();
    match Document::read_at(alloc, level, container, path, text, &mut steps) {
        Ok(document) => shown(alloc, &document.outline),
        Err(fault) => fault_word(alloc, &fault),
    }
}

fn level_number(level: Level) -> u32 {
    match level {
        Level::Java13 => 13,
        Level::Java14 => 14,
    }
}

fn unit_shown(alloc: Global, unit: &Option<Unit>) -> Result<String, AllocError> {
    match unit {
        Some(unit) => {
            let types = unit.types.len();
            format!(in alloc; "{types}")
        }
        None => format!(in alloc; "no unit,"),
    }
}

fn document_shown(
    alloc: Global,
    document: &Document,
    steps: &mut Steps<Reads>,
) -> Result<String, AllocError> {
    let unit = document.unit(alloc, steps)?;
    let unit = unit_shown(alloc, &unit)?;
    let outline = shown(alloc, &document.outline)?;
    let level = level_number(document.level);
    let path = document.path.as_str();
    let bytes = document.text.len();
    let outline = outline.as_str();
    let unit = unit.as_str();
    format!(in alloc; "{level} {path} {bytes} {unit} {outline}")
}

/// The document of a text under a path, with its unit.
fn document_of(alloc: Global, path: &str, text: &str) -> Result<String, AllocError> {
    let container = Text::from_str(alloc, "src")?;
    let path = Text::from_str(alloc, path)?;
    let text = Text::from_str(alloc, text)?;
    if !is_container(container.as_str()) || !is_name(path.as_str()) {
        return format!(in alloc; "no name");
    }
    let mut steps: Steps<Reads> = Steps::new();
    match Document::read(alloc, container, path, text, &mut steps) {
        Ok(document) => document_shown(alloc, &document, &mut steps),
        Err(fault) => fault_word(alloc, &fault),
    }
}

#[test]
fn texts_and_their_outlines(rt: HostRuntime) -> Result<(), Fail> {
    for (text, want) in OUTLINES {
        let found = outcome(rt.alloc(), Level::Java14, text)?;
        assert_eq!(rt; found.as_str(), want, "of {text:?}");
    }
    for (text, want) in BEFORE_ASSERT {
        let found = outcome(rt.alloc(), Level::Java13, text)?;
        assert_eq!(rt; found.as_str(), want, "of {text:?}");
    }
    for (path, text, want) in READ {
        let found = document_of(rt.alloc(), path, text)?;
        assert_eq!(rt; found.as_str(), want, "of {path:?} {text:?}");
    }
    Ok(())
}
