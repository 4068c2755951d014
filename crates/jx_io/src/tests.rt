ghost use Rattle.std.specs.Prelude.{◌≡◌, ◌+◌, None, Some, IfOk, string_len};

use crate::{
    IoFault, MemSink, MemSource, ReadAllFault, Sink, Source, StdSink, StdSource, Steps, read_all,
    write_whole,
};
use std::alloc::{AllocError, Allocator, Global};
use std::cell::RefCell;
use std::fmt::Display;
use std::io;
use std::io::{BufRead, Input, Lines, Print};
use std::mem::size_of;
use std::test::Fail;

/// Gives one byte a call, and shows none to contracts.
#[derive(Drop)]
struct Drip<'a> {
    rest: &'a [u8],
}

impl<'a> Source for Drip<'a> {
    ghost left = { λ _. None };

    ghost faults = { λ _. 0 };

    fn read(&mut self, buf: &mut [u8]) -> Result<usize, IoFault> {
        let [first, rest @ ..] = self.rest else {
            return Ok(0);
        };
        buf[0] = *first;
        self.rest = rest;
        Ok(1)
    }
}

/// Has no end, and fills each buffer.
#[derive(Drop)]
struct Endless {
    given: usize,
}

impl Source for Endless {
    ghost left = { λ _. None };

    ghost faults = { λ _. 0 };

    fn read(&mut self, buf: &mut [u8]) -> Result<usize, IoFault> {
        self.given = self.given.saturating_add(buf.len());
        Ok(buf.len())
    }
}

/// Takes one byte a call, and three in all.
#[derive(Drop)]
struct Trickle {
    bytes: Vec<u8>,
    faults: u64,
}

impl Sink for Trickle {
    ghost written = { λ t. Some t.bytes.items };

    ghost faults = { λ t. t.faults };

    fn write(&mut self, piece: &[u8]) -> Result<usize, IoFault> {
        if self.bytes.len() < 3 && self.bytes.push(piece[0]).is_ok() {
            return Ok(1);
        }
        self.faults = self.faults.saturating_add(1);
        Err(IoFault)
    }
}

/// A host that gives its input as it is asked for, and records what is written: at most `most` bytes a
/// call, and none before a `!`.
#[derive(Drop)]
struct Host<'a> {
    input: &'a [u8],
    most: usize,
    written: RefCell<Vec<u8>>,
}

impl<'a> Input for Host<'a> {
    type Reader = &'a [u8];

    fn read_line<A: Allocator + Clone>(&self, buf: &mut String<A>) -> io::Result<usize>
        ensures ok { IfOk result (λ n. string_len buf.new ≡ string_len buf.old + n) }
    {
        self.reader().read_line(buf)
    }

    fn lines<A: Allocator>(&self, alloc: A) -> Lines<&'a [u8], A> {
        self.reader().lines(alloc)
    }

    fn reader(&self) -> &'a [u8] {
        self.input
    }
}

impl<'a> Print for Host<'a> {
    fn print<D: Display + Drop>(&self, _value: D) -> io::Result<()> {
        Ok(())
    }

    fn println<D: Display + Drop>(&self, _value: D) -> io::Result<()> {
        Ok(())
    }

    fn write_all(&self, _bytes: &[u8]) -> io::Result<()> {
        Ok(())
    }

    fn write_some(&self, bytes: &[u8]) -> io::Result<usize> {
        let count = match bytes {
            [] | [b'!', ..] => 0,
            _ => bytes.len().min(self.most),
        };
        let Ok(mut written) = self.written.try_borrow_mut() else {
            return Ok(0);
        };
        match written.extend_from_slice(&bytes[..count]) {
            Ok(()) => Ok(count),
            Err(_) => Ok(0),
        }
    }
}

/// So many bytes, of which those that are a chunk apart differ.
fn many(alloc: Global, len: usize) -> Result<Vec<u8>, AllocError> {
    let mut bytes = Vec::new(alloc);
    for at in 0..len {
        bytes.push(b'0' + (at % 61) as u8)?;
    }
    Ok(bytes)
}

struct Bytes;

fn five(steps: &mut Steps<Bytes>)
    ensures { steps.new ≡ steps.old + 5 }
{
    steps.add(2);
    steps.add(3);
}

fn read_of(
    alloc: Global,
    text: &[u8],
    failing: &[u64],
    limit: usize,
) -> Result<Vec<u8>, ReadAllFault> {
    let mut source = MemSource::new(text.to_vec(alloc)?, failing.to_vec(alloc)?);
    read_all(alloc, &mut source, limit)
}

#[test]
fn reads_to_the_end(rt: HostRuntime) -> Result<(), Fail> {
    let alloc = rt.alloc();
    assert_eq!(rt;
        read_of(alloc, b"abc", &[], 3)?.as_slice(),
        b"abc".as_slice()
    );
    assert_eq!(rt;
        read_of(alloc, b"abc", &[3], usize::MAX)?.as_slice(),
        b"abc".as_slice()
    );
    assert_eq!(rt; read_of(alloc, b"", &[], 0)?.as_slice(), b"".as_slice());
    assert_eq!(rt;
        read_of(alloc, b"abc", &[], 2).err(),
        Some(ReadAllFault::TooLong)
    );
    assert_eq!(rt;
        read_of(alloc, b"a", &[], 0).err(),
        Some(ReadAllFault::TooLong)
    );
    let mut source = MemSource::new(b"abc".to_vec(alloc)?, [2].to_vec(alloc)?);
    assert_eq!(rt;
        read_all(alloc, &mut source, 3).err(),
        Some(ReadAllFault::Fault)
    );
    assert_eq!(rt; source.faults(), 1);

    let mut drip = Drip { rest: b"abc" };
    assert_eq!(rt;
        read_all(alloc, &mut drip, 3)?.as_slice(),
        b"abc".as_slice()
    );
    let mut endless = Endless { given: 0 };
    assert_eq!(rt;
        read_all(alloc, &mut endless, 10_000).err(),
        Some(ReadAllFault::TooLong)
    );
    assert_eq!(rt; endless.given, 10_001);
    Ok(())
}

#[test]
fn writes_whole(rt: HostRuntime) -> Result<(), Fail> {
    let alloc = rt.alloc();
    let failing = [2].to_vec(alloc)?;
    let mut sink = MemSink::new(alloc, 4, failing)?;
    assert_eq!(rt; write_whole(&mut sink, b"abc"), Ok(()));
    assert_eq!(rt; write_whole(&mut sink, b"d"), Err(IoFault));
    assert_eq!(rt; write_whole(&mut sink, b"de"), Err(IoFault));
    assert_eq!(rt; write_whole(&mut sink, b"d"), Ok(()));
    assert_eq!(rt; sink.bytes(), b"abcd".as_slice());
    assert_eq!(rt; sink.faults(), 2);

    let mut trickle = Trickle {
        bytes: Vec::new(alloc),
        faults: 0,
    };
    assert_eq!(rt; write_whole(&mut trickle, b"ab"), Ok(()));
    assert_eq!(rt; write_whole(&mut trickle, b"cd"), Err(IoFault));
    assert_eq!(rt; trickle.bytes.as_slice(), b"abc".as_slice());
    Ok(())
}

#[test]
fn stands_on_a_host(rt: HostRuntime) -> Result<(), Fail> {
    let text = many(rt.alloc(), 20_000)?;
    let host = Host {
        input: &text,
        most: 5_000,
        written: RefCell::new(Vec::new(rt.alloc())),
    };
    let read = read_all(rt.alloc(), &mut StdSource::new(&host), 20_000)?;
    assert!(rt; read.as_slice() == text.as_slice());
    let mut sink = StdSink::new(&host);
    assert_eq!(rt; write_whole(&mut sink, &read), Ok(()));
    assert_eq!(rt; write_whole(&mut sink, b"!"), Err(IoFault));
    let written = host.written.into_inner();
    assert!(rt; written.as_slice() == text.as_slice());
    Ok(())
}

#[test]
fn steps_take_no_bytes(rt: HostRuntime) {
    let mut steps = Steps::<Bytes>::new();
    five(&mut steps);
    assert_eq!(rt; size_of::<Steps<Bytes>>(), 0);
}
