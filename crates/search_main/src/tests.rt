use crate::{Status, batch};
use itoa::Buffer;
use jx_io::{MemSink, MemSource};
use script_text::MAX_SCRIPT;
use std::alloc::{AllocError, Global};
use std::test::*;

const ONE_CLASS: &str =
    "doc src A.java 1 10\nclass A {}\n@1 search s wait type declarations exact case * A\n";

const ONE_MATCH: &str =
    "journal 0\n3 search 0 matches 1 resolved 1 newer 0 skipped 0\n src A.java 6 1 type-decl accurate\nend\n";

const NOT_BUILT: &str = "fault script 0 NotBuilt\n";

/// Scripts under the word `batch`, each with its output and its status.
const SCRIPTS: [(&str, &str, Status); 12] = [
    (ONE_CLASS, ONE_MATCH, Status::Done),
    ("", "journal 0\nend\n", Status::Done),
    ("x", NOT_BUILT, Status::Script),
    (
        "doc src A.java 1 10\nclass A {}\n@1 search s wait type declarations exact case * A",
        NOT_BUILT,
        Status::Script,
    ),
    (
        "doc src A.java 1 10\nclass A {}\ndoc src A.java 2 10\nclass B {}\n",
        NOT_BUILT,
        Status::Script,
    ),
    (
        "@1 search s wait type declarations exact case * A\ndoc src A.java 1 10\nclass A {}\n",
        NOT_BUILT,
        Status::Script,
    ),
    (
        "doc src A.java 1 12\nclass int {}\n@1 search s wait type declarations exact case * int\n",
        "journal 0\n3 search 0 matches 0 resolved 1 newer 0 skipped 0\nend\n",
        Status::Done,
    ),
    (
        "doc src A.java 1 85\nclass A { class B {} void m() { class B {} new B() { class B {} }; } interface B {} }\ndoc lib B.java 1 9\nclass B {\n@1 search s wait type declarations exact case * B\n@1 search t wait type declarations exact case * m\n",
        "journal 0\n5 search 0 matches 4 resolved 2 newer 0 skipped 0\n src A.java 16 1 type-decl accurate\n src A.java 38 1 type-decl accurate\n src A.java 59 1 type-decl accurate\n src A.java 79 1 type-decl accurate\n6 search 0 matches 0 resolved 2 newer 0 skipped 0\nend\n",
        Status::Done,
    ),
    (
        "doc src b.java 1 21\nclass A {} class A {}\ndoc src a.java 1 21\nclass A {} class A {}\n@1 search s wait type declarations exact case * A\n",
        "journal 0\n5 search 0 matches 4 resolved 2 newer 0 skipped 0\n src a.java 6 1 type-decl accurate\n src a.java 17 1 type-decl accurate\n src b.java 6 1 type-decl accurate\n src b.java 17 1 type-decl accurate\nend\n",
        Status::Done,
    ),
    (
        "@1 search s wait type declarations exact case * A\n",
        "journal 0\n1 search 0 matches 0 resolved 0 newer 0 skipped 0\nend\n",
        Status::Done,
    ),
    (
        "doc src p/A.java 1 19\npackage p;class A{}\ndoc lib q/B.java 1 40\npackage q;import p.A;class B extends A{}\n@1 search r wait type references exact case * p.A\n@1 search s wait type implementors exact case lib,src p.A\n@1 search t wait package references exact case lib p\n@1 search u wait type references exact case src p.A\n",
        "journal 0\n5 search 0 matches 2 resolved 2 newer 0 skipped 0\n lib q/B.java 19 1 type-ref accurate\n lib q/B.java 37 1 type-ref accurate\n6 search 0 matches 1 resolved 2 newer 0 skipped 0\n lib q/B.java 37 1 super-ref accurate\n7 search 0 matches 1 resolved 1 newer 0 skipped 0\n lib q/B.java 17 1 package-ref accurate\n8 search 0 matches 0 resolved 1 newer 0 skipped 0\nend\n",
        Status::Done,
    ),
    (
        "doc src A.java 1 110\nclass A{int x;}class B extends A{int x;int f(){return x;}int g(int x){return x;}int h(){A A=null;return A.x;}}\n@1 search s wait type references exact case * A\n@1 search t wait type declarations exact case * p.\n@1 search u wait type reads exact case * A\n@1 search v wait type declarations exact case * A(\n",
        "journal 0\n3 search 0 matches 2 resolved 1 newer 0 skipped 0\n src A.java 31 1 type-ref accurate\n src A.java 88 1 type-ref accurate\n4 search pattern Empty\n5 search pattern WrongLimit\n6 search pattern BadParens 1\nend\n",
        Status::Done,
    ),
];

/// Command lines that are refused.
const OTHER_WORDS: [&[&str]; 3] = [&[], &["find"], &["batch", "x"]];

/// Runs that meet a fault: the script, the calls of the source and of the sink that fail, and how it ends.
const FAULTS: [(&str, &[u64], &[u64], &str, Status); 4] = [
    (ONE_CLASS, &[1], &[], "fault read\n", Status::ReadFault),
    (ONE_CLASS, &[2], &[], "fault read\n", Status::ReadFault),
    (ONE_CLASS, &[], &[1], "", Status::WriteFault),
    ("x", &[], &[1], "", Status::WriteFault),
];

fn words_of(alloc: Global, words: &[&str]) -> Result<Vec<String>, AllocError> {
    let mut owned = Vec::new(alloc);
    for word in words {
        owned.push(String::from_str(alloc, word)?)?;
    }
    Ok(owned)
}

/// A run over memory, with a sink of 200,000 bytes.
fn run(
    alloc: Global,
    words: &[&str],
    script: &[u8],
    failing_reads: &[u64],
    failing_writes: &[u64],
) -> Result<(Status, Vec<u8>), AllocError> {
    let words = words_of(alloc, words)?;
    let mut source = MemSource::new(script.to_vec(alloc)?, failing_reads.to_vec(alloc)?);
    let mut sink = MemSink::new(alloc, 200_000, failing_writes.to_vec(alloc)?)?;
    let status = batch(alloc, &words, &mut source, &mut sink);
    Ok((status, sink.bytes().to_vec(alloc)?))
}

#[test]
fn scripts_and_their_outputs(rt: HostRuntime) -> Result<(), Fail> {
    for (script, output, status) in SCRIPTS {
        let ended = run(rt.alloc(), &["batch"], script.as_bytes(), &[], &[])?;
        assert!(rt; ended.0 == status, "of {script:?}");
        assert_eq!(rt; ended.1.as_slice(), output.as_bytes(), "of {script:?}");
    }
    Ok(())
}

#[test]
fn other_words_are_refused(rt: HostRuntime) -> Result<(), Fail> {
    for words in OTHER_WORDS {
        let ended = run(rt.alloc(), words, ONE_CLASS.as_bytes(), &[], &[])?;
        assert!(rt; ended.0 == Status::Words);
        assert_eq!(rt; ended.1.as_slice(), b"fault words\n".as_slice());
    }
    Ok(())
}

#[test]
fn faults_end_a_run(rt: HostRuntime) -> Result<(), Fail> {
    for (script, reads, writes, output, status) in FAULTS {
        let ended = run(rt.alloc(), &["batch"], script.as_bytes(), reads, writes)?;
        assert!(rt; ended.0 == status, "of {script:?}");
        assert_eq!(rt; ended.1.as_slice(), output.as_bytes(), "of {script:?}");
    }
    Ok(())
}

/// A large script: ten documents of 300 classes `A`, 40 bytes each, and two searches.
fn large_script(alloc: Global) -> Result<String, AllocError> {
    let mut script = String::new(alloc);
    for number in 0..10u8 {
        script.push_str("doc src D")?;
        script.push((b'0' + number) as char)?;
        script.push_str(".java 1 12000\n")?;
        for _ in 0..300 {
            script.push_str("class A {}                              ")?;
        }
        script.push_str("\n")?;
    }
    script.push_str("@1 search a wait type declarations exact case * A\n")?;
    script.push_str("@1 search b wait type declarations exact case * B\n")?;
    Ok(script)
}

/// Its output, of more than 100,000 bytes.
fn large_output(alloc: Global) -> Result<String, AllocError> {
    let mut output = String::new(alloc);
    output.push_str("journal 0\n21 search 0 matches 3000 resolved 10 newer 0 skipped 0\n")?;
    for number in 0..10u8 {
        for place in 0..300u32 {
            output.push_str(" src D")?;
            output.push((b'0' + number) as char)?;
            output.push_str(".java ")?;
            output.push_str(Buffer::new().format(place * 40 + 6))?;
            output.push_str(" 1 type-decl accurate\n")?;
        }
    }
    output.push_str("22 search 0 matches 0 resolved 10 newer 0 skipped 0\nend\n")?;
    Ok(output)
}

#[test]
fn a_large_script_and_its_output(rt: HostRuntime) -> Result<(), Fail> {
    let script = large_script(rt.alloc())?;
    let output = large_output(rt.alloc())?;
    let done = run(rt.alloc(), &["batch"], script.as_bytes(), &[], &[])?;
    assert!(rt; done.0 == Status::Done && output.len() > 100_000);
    assert!(rt; done.1.as_slice() == output.as_bytes());

    // The second chunk can't be read.
    let failed = run(rt.alloc(), &["batch"], script.as_bytes(), &[2], &[])?;
    assert!(rt; failed.0 == Status::ReadFault);
    assert_eq!(rt; failed.1.as_slice(), b"fault read\n".as_slice());
    Ok(())
}

#[test]
fn a_script_over_the_limit(rt: HostRuntime) -> Result<(), Fail> {
    let script = vec![in rt.alloc(); b'x'; MAX_SCRIPT + 1]?;
    let ended = run(rt.alloc(), &["batch"], &script, &[], &[])?;
    assert!(rt; ended.0 == Status::TooLong);
    assert_eq!(rt; ended.1.as_slice(), b"fault long\n".as_slice());
    Ok(())
}
