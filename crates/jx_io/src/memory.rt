ghost use Rattle.std.specs.Prelude.{◌≡◌, ◌<◌, ◌≤◌, ◌+◌, ◌⊎◌, ◌↔◌, min, [], length, take, drop, Some, IsTrue, IsErr, IfOk, OnErr};
ghost use Rattle.jx_io.specs.Stream.{next_count, CountedOne, Takes, HasEnded, Appends};
ghost use Rattle.jx_io.specs.Memory.{FailsNext, source_after, failed_source, sink_after, failed_sink};

use crate::fault::Faults;
use crate::{IoFault, Sink, Source};
use std::alloc::{AllocError, Global};
use std::marker::Model;

/// The calls of an object in memory: the numbers of those that fail, and how many were made.
#[derive(Debug, Drop)]
struct Calls {
    failing: Vec<u64>,
    made: u64,
}

impl Calls {
    /// Counts a call, and answers whether it is one of those that fail.
    fn begin(&mut self) -> bool
        ensures fails { IsTrue result ↔ FailsNext self.old.failing.items self.old.made }
        ensures counts { self.new ≡ record self.old { made = next_count self.old.made } }
    {
        self.made = self.made.saturating_add(1);
        self.failing.contains(&self.made)
    }
}

/// A source in memory, whose listed calls fail.
#[derive(Debug, Drop)]
pub struct MemSource {
    bytes: Vec<u8>,
    at: usize,
    calls: Calls,
    faults: Faults,
}

impl Model for MemSource {
    ghost use Rattle.std.specs.Prelude.{◌≤◌, length, drop};
    ghost use Rattle.jx_io.specs.Memory.{SourceState};

    ghost Value = { SourceState };

    ghost view = { λ s. record {
      left = drop s.at s.bytes.items;
      failing = s.calls.failing.items;
      calls = s.calls.made;
      faults = s.faults;
    } };

    ghost invariant = { λ s. s.at ≤ length s.bytes.items };
}

impl MemSource {
    /// A source of these bytes, whose calls of the listed numbers, counted from 1, fail.
    pub fn new(bytes: Vec<u8>, failing: Vec<u64>) -> MemSource
        ensures { result ≡ record {
          left = bytes.items;
          failing = failing.items;
          calls = 0;
          faults = 0;
        } }
    {
        MemSource {
            bytes,
            at: 0,
            calls: Calls { failing, made: 0 },
            faults: Faults::new(),
        }
    }

    /// How many calls have failed.
    pub fn faults(&self) -> u64
        ensures { result ≡ self.now.faults }
    {
        self.faults.count()
    }
}

impl Source for MemSource {
    ghost left = { λ s. Some s.left };

    ghost faults = { λ s. s.faults };

    fn read(&mut self, buf: &mut [u8]) -> Result<usize, IoFault>
        requires { 0 < length buf.old }
        ensures fails { IsErr result ↔ FailsNext self.old.failing self.old.calls }
        ensures count { IfOk result (λ n. n ≡ min (length buf.old) (length self.old.left)) }
        ensures given { IfOk result (λ n. take n buf.new ≡ take n self.old.left) }
        ensures rest { IfOk result (λ n. drop n buf.new ≡ drop n buf.old) }
        ensures untouched { OnErr result (buf.new ≡ buf.old) }
        ensures after { IfOk result (λ n. self.new ≡ source_after self.old n) }
        ensures after_failure { OnErr result (self.new ≡ failed_source self.old) }

        // What every source promises.
        ensures within { IfOk result (λ n. n ≤ length buf.new) }
        ensures taken { IfOk result (λ n.
            Takes (Some self.old.left) (Some self.new.left) (take n buf.new)) }
        ensures end { IfOk result (λ n. n ≡ 0 → HasEnded (Some self.old.left)) }
        ensures kept { OnErr result (self.new.left ≡ self.old.left) }
        ensures cause { OnErr result (CountedOne self.old.faults self.new.faults) }
        ensures quiet { IfOk result (λ _. self.new.faults ≡ self.old.faults) }
        ensures counted { self.old.faults ≤ self.new.faults }
    {
        if self.calls.begin() {
            return Err(self.faults.raise());
        }
        let count = buf.len().min(self.bytes.len() - self.at);
        buf[..count].copy_from_slice(&self.bytes[self.at..self.at + count]);
        self.at += count;
        Ok(count)
    }
}

/// A sink in memory, whose listed calls fail, and those for which it has no room.
#[derive(Debug, Drop)]
pub struct MemSink {
    bytes: Vec<u8>,
    room: usize,
    calls: Calls,
    faults: Faults,
}

impl Model for MemSink {
    ghost use Rattle.std.specs.Prelude.{◌≤◌, length, vec_capacity};
    ghost use Rattle.jx_io.specs.Memory.{SinkState};

    ghost Value = { SinkState };

    ghost view = { λ s. record {
      written = s.bytes.items;
      room = s.room;
      failing = s.calls.failing.items;
      calls = s.calls.made;
      faults = s.faults;
    } };

    ghost invariant = { λ s. (length s.bytes.items ≤ s.room) × (s.room ≤ vec_capacity s.bytes) };
}

impl MemSink {
    /// An empty sink with room for so many bytes, whose calls of the listed numbers, counted from 1, fail.
    pub fn new(alloc: Global, room: usize, failing: Vec<u64>) -> Result<MemSink, AllocError>
        ensures { IfOk result (λ s. s ≡ record {
          written = [];
          room = room;
          failing = failing.items;
          calls = 0;
          faults = 0;
        }) }
    {
        let bytes = Vec::with_capacity(alloc, room)?;
        Ok(MemSink {
            bytes,
            room,
            calls: Calls { failing, made: 0 },
            faults: Faults::new(),
        })
    }

    /// The bytes that were written.
    pub fn bytes(&self) -> &[u8]
        ensures { result.now ≡ self.now.written }
    {
        &self.bytes
    }

    /// How many calls have failed.
    pub fn faults(&self) -> u64
        ensures { result ≡ self.now.faults }
    {
        self.faults.count()
    }
}

impl Sink for MemSink {
    ghost written = { λ s. Some s.written };

    ghost faults = { λ s. s.faults };

    fn write(&mut self, piece: &[u8]) -> Result<usize, IoFault>
        requires { 0 < length piece.now }
        ensures fails { IsErr result ↔ (FailsNext self.old.failing self.old.calls
            ⊎ (self.old.room < length self.old.written + length piece.now)) }
        ensures count { IfOk result (λ n. n ≡ length piece.now) }
        ensures after { IfOk result (λ n. self.new ≡ sink_after self.old piece.now) }
        ensures after_failure { OnErr result (self.new ≡ failed_sink self.old) }

        // What every sink promises.
        ensures some { IfOk result (λ n. 1 ≤ n) }
        ensures within { IfOk result (λ n. n ≤ length piece.now) }
        ensures appended { IfOk result (λ n.
            Appends (Some self.old.written) (Some self.new.written) (take n piece.now)) }
        ensures kept { OnErr result (self.new.written ≡ self.old.written) }
        ensures cause { OnErr result (CountedOne self.old.faults self.new.faults) }
        ensures quiet { IfOk result (λ _. self.new.faults ≡ self.old.faults) }
        ensures counted { self.old.faults ≤ self.new.faults }
    {
        let fails = self.calls.begin();
        if fails || piece.len() > self.room - self.bytes.len() {
            return Err(self.faults.raise());
        }
        self.bytes.extend_from_slice(piece).unwrap();
        Ok(piece.len())
    }
}
