ghost use Rattle.search_main.specs.Top.{Exits};
ghost use Rattle.search_main.specs.Words.{words_in};

use crate::status::Status;
use crate::top::batch;
use crate::words::words_of;
use jx_io::{Sink, Source};
use std::alloc::{AllocError, Global};
use std::env::Args;
use std::io;

/// What the program `jsearch` does with its arguments, and the exit status of its process.
pub fn run_process<S: Source, K: Sink>(
    alloc: Global,
    arguments: io::Result<Args>,
    source: &mut S,
    sink: &mut K,
) -> u8
    ensures { Exits (record {
      words = words_in arguments;
      left = S.left source.old;
      left_after = S.left source.new;
      read_faults = S.faults source.old;
      read_faults_after = S.faults source.new;
      written = K.written sink.old;
      written_after = K.written sink.new;
      write_faults = K.faults sink.old;
      write_faults_after = K.faults sink.new;
    }) result }
{
    match words_of(alloc, arguments) {
        Ok(words) => batch(alloc, &words, source, sink).code(),
        Err(AllocError) => Status::NoMemory.code(),
    }
}
