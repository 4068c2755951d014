ghost use Rattle.std.specs.Prelude.{◌≡◌, ◌↔◌, ◌<◌, ◌≤◌, ◌+◌, ◌⊎◌, ℕ, List, length, map, string_bytes, IsTrue};
ghost use Rattle.jx_io.specs.Stream.{CountedOne, Rose, TakesSome, Appends, AppendsPrefix};
ghost use Rattle.search_main.specs.declared.status.Status.TheVariants.{WriteFault};
ghost use Rattle.script_text.specs.Lines.{IsAccepted};
ghost use Rattle.search_main.specs.Top.{AreBatch, Ended, IsUnlessFailed};

use crate::answer::answer;
use crate::status::Status;
use jx_io::{ReadAllFault, Sink, Source, read_all, write_whole};
use script_text::{MAX_SCRIPT, ScriptFault};
use std::alloc::Global;

/// Whether the words are the one word `batch`.
fn are_batch(words: &[String]) -> bool
    ensures { IsTrue result ↔ AreBatch (map string_bytes words.now) }
{
    match words {
        [word] => word.as_str() == "batch",
        _ => false,
    }
}

/// Writes a text, and answers the status that is wanted, or that the text couldn't be written.
fn finish<K: Sink>(sink: &mut K, text: &[u8], wanted: Status) -> Status
    ensures wrote { ((result ≡ wanted) × Appends (K.written sink.old) (K.written sink.new) text.now × (K.faults sink.new ≡ K.faults sink.old))
        ⊎ ((result ≡ WriteFault) × AppendsPrefix (K.written sink.old) (K.written sink.new) text.now × CountedOne (K.faults sink.old) (K.faults sink.new)) }
    ensures counted { K.faults sink.old ≤ K.faults sink.new }
{
    match write_whole(sink, text) {
        Ok(()) => wanted,
        Err(_) => Status::WriteFault,
    }
}

/// Reads a script, and writes its output or a fault's line.
fn end<S: Source, K: Sink>(alloc: Global, words: &[String], source: &mut S, sink: &mut K) -> Status
    ensures ended { Ended (record {
      words = map string_bytes words.now;
      left = S.left source.old;
      left_after = S.left source.new;
      read_faults = S.faults source.old;
      read_faults_after = S.faults source.new;
      written = K.written sink.old;
      written_after = K.written sink.new;
      write_faults = K.faults sink.old;
      write_faults_after = K.faults sink.new;
    }) result }
    ensures bounded { TakesSome (S.left source.old) (S.left source.new) (λ bytes. length bytes ≤ MAX_SCRIPT + 1) }
    ensures reads_counted { S.faults source.old ≤ S.faults source.new }
    ensures writes_counted { K.faults sink.old ≤ K.faults sink.new }
{
    if !are_batch(words) {
        return finish(sink, b"fault words\n", Status::Words);
    }
    let input = match read_all(alloc, source, MAX_SCRIPT) {
        Ok(input) => input,
        Err(ReadAllFault::Fault) => return finish(sink, b"fault read\n", Status::ReadFault),
        Err(ReadAllFault::TooLong) => return finish(sink, b"fault long\n", Status::TooLong),
        Err(ReadAllFault::NoMemory) => return Status::NoMemory,
    };
    match answer(alloc, &input) {
        Ok(output) => finish(sink, output.as_bytes(), Status::Done),
        Err(ScriptFault::NotBuilt) => finish(sink, b"fault script 0 NotBuilt\n", Status::Script),
        Err(ScriptFault::NoMemory) => Status::NoMemory,
    }
}

/// `jsearch batch`: reads a script to its end, and writes a legal output of it.
pub fn batch<S: Source, K: Sink>(
    alloc: Global,
    words: &[String],
    source: &mut S,
    sink: &mut K,
) -> Status
    // Each status has its cause, and says what was read and what was written.
    ensures ended { Ended (record {
      words = map string_bytes words.now;
      left = S.left source.old;
      left_after = S.left source.new;
      read_faults = S.faults source.old;
      read_faults_after = S.faults source.new;
      written = K.written sink.old;
      written_after = K.written sink.new;
      write_faults = K.faults sink.old;
      write_faults_after = K.faults sink.new;
    }) result }

    // Each cause brings its status, unless a fault came or memory ran out. The words come first.
    ensures words_exactly { ¬ AreBatch (map string_bytes words.now) → (result ≡ Status.Words) ⊎ (result ≡ Status.WriteFault) }
    ensures unread { ¬ AreBatch (map string_bytes words.now)
        → (S.left source.new ≡ S.left source.old) × (S.faults source.new ≡ S.faults source.old) }
    ensures long_exactly { AreBatch (map string_bytes words.now)
        → (input : List ℕ) → S.left source.old ≡ Some input → MAX_SCRIPT < length input
        → IsUnlessFailed Status.TooLong result }
    ensures script_exactly { AreBatch (map string_bytes words.now)
        → (input : List ℕ) → S.left source.old ≡ Some input → length input ≤ MAX_SCRIPT → (¬ IsAccepted input)
        → IsUnlessFailed Status.Script result }

    // A script has its output where no fault is counted, unless memory runs out.
    ensures complete { AreBatch (map string_bytes words.now)
        → (input : List ℕ) → S.left source.old ≡ Some input → length input ≤ MAX_SCRIPT → IsAccepted input
        → (¬ Rose (S.faults source.old) (S.faults source.new)) → (¬ Rose (K.faults sink.old) (K.faults sink.new))
        → (result ≡ Status.Done) ⊎ (result ≡ Status.NoMemory) }

    // However the call ends, no more than one byte past the limit was taken.
    ensures bounded { TakesSome (S.left source.old) (S.left source.new) (λ bytes. length bytes ≤ MAX_SCRIPT + 1) }

    // A count rises by one at most, and that of the sink only under its status.
    ensures reads { (S.faults source.new ≡ S.faults source.old) ⊎ CountedOne (S.faults source.old) (S.faults source.new) }
    ensures writes { (result ≡ WriteFault) ⊎ (K.faults sink.new ≡ K.faults sink.old) }
    ensures reads_counted { S.faults source.old ≤ S.faults source.new }
    ensures writes_counted { K.faults sink.old ≤ K.faults sink.new }
{
    end(alloc, words, source, sink)
}
