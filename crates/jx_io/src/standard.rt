ghost use Rattle.std.specs.Prelude.{◌≡◌, ◌<◌, ◌≤◌, length, take, IsErr, IfOk, OnErr, MatchResult};
ghost use Rattle.jx_io.specs.Stream.{next_count, CountedOne, Takes, HasEnded, Appends};
ghost use Rattle.jx_io.specs.Standard.{no_bytes};

use crate::fault::Faults;
use crate::{IoFault, Sink, Source};
use std::io;
use std::io::{Input, Print, Read};
use std::marker::{Model, PhantomData};

/// What a read answers, where the host's error is a fault.
fn read_answer(faults: &mut Faults, answer: io::Result<usize>) -> Result<usize, IoFault>
    ensures given { IfOk answer (λ n. result ≡ Ok n) }
    ensures failed { OnErr answer (IsErr result) }
    ensures counts { MatchResult result
        (λ _. faults.new ≡ faults.old) (λ _. faults.new ≡ next_count faults.old) }
    ensures never_falls { faults.old ≤ faults.new }
{
    match answer {
        Ok(count) => Ok(count),
        Err(_) => Err(faults.raise()),
    }
}

/// What a write answers, where the host's error and a write that takes nothing are faults.
fn write_answer(faults: &mut Faults, answer: io::Result<usize>) -> Result<usize, IoFault>
    ensures taken { IfOk answer (λ n. 0 < n → result ≡ Ok n) }
    ensures nothing { IfOk answer (λ n. n ≡ 0 → IsErr result) }
    ensures failed { OnErr answer (IsErr result) }
    ensures counts { MatchResult result
        (λ _. faults.new ≡ faults.old) (λ _. faults.new ≡ next_count faults.old) }
    ensures never_falls { faults.old ≤ faults.new }
{
    match answer {
        Ok(count) if count > 0 => Ok(count),
        _ => Err(faults.raise()),
    }
}

/// Standard input, which contracts see as its count of faults.
#[derive(Drop)]
pub struct StdSource<'a, R: Input> {
    host: PhantomData<&'a R>,
    reader: R::Reader,
    faults: Faults,
}

impl<'a, R: Input> Model for StdSource<'a, R> {
    ghost use Rattle.std.specs.Prelude.{ℕ};

    ghost Value = { ℕ };

    ghost view = { λ s. s.faults };
}

impl<'a, R: Input> StdSource<'a, R> {
    /// The standard input of this host.
    pub fn new(host: &'a R) -> StdSource<'a, R>
        ensures { result ≡ 0 }
    {
        StdSource {
            host: PhantomData,
            reader: host.reader(),
            faults: Faults::new(),
        }
    }
}

impl<'a, R: Input> Source for StdSource<'a, R> {
    ghost left = { no_bytes };

    ghost faults = { λ s. s };

    fn read(&mut self, buf: &mut [u8]) -> Result<usize, IoFault>
        ensures within { IfOk result (λ n. n ≤ length buf.new) }
        ensures taken { IfOk result (λ n.
            Takes (no_bytes self.old) (no_bytes self.new) (take n buf.new)) }
        ensures end { IfOk result (λ n. n ≡ 0 → HasEnded (no_bytes self.old)) }
        ensures kept { OnErr result (no_bytes self.new ≡ no_bytes self.old) }
        ensures cause { OnErr result (CountedOne self.old self.new) }
        ensures quiet { IfOk result (λ _. self.new ≡ self.old) }
        ensures counted { self.old ≤ self.new }
    {
        let answer = self.reader.read(buf);
        read_answer(&mut self.faults, answer)
    }
}

/// Standard output, which contracts see as its count of faults.
#[derive(Drop)]
pub struct StdSink<'a, R: Print> {
    host: &'a R,
    faults: Faults,
}

impl<'a, R: Print> Model for StdSink<'a, R> {
    ghost use Rattle.std.specs.Prelude.{ℕ};

    ghost Value = { ℕ };

    ghost view = { λ s. s.faults };
}

impl<'a, R: Print> StdSink<'a, R> {
    /// The standard output of this host.
    pub fn new(host: &'a R) -> StdSink<'a, R>
        ensures { result ≡ 0 }
    {
        StdSink {
            host,
            faults: Faults::new(),
        }
    }
}

impl<'a, R: Print> Sink for StdSink<'a, R> {
    ghost written = { no_bytes };

    ghost faults = { λ s. s };

    fn write(&mut self, piece: &[u8]) -> Result<usize, IoFault>
        ensures some { IfOk result (λ n. 1 ≤ n) }
        ensures within { IfOk result (λ n. n ≤ length piece.now) }
        ensures appended { IfOk result (λ n.
            Appends (no_bytes self.old) (no_bytes self.new) (take n piece.now)) }
        ensures kept { OnErr result (no_bytes self.new ≡ no_bytes self.old) }
        ensures cause { OnErr result (CountedOne self.old self.new) }
        ensures quiet { IfOk result (λ _. self.new ≡ self.old) }
        ensures counted { self.old ≤ self.new }
    {
        let answer = self.host.write_some(piece);
        write_answer(&mut self.faults, answer)
    }
}
