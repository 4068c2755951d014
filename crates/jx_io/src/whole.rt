ghost use Rattle.std.specs.Prelude.{◌≡◌, ◌+◌, ◌≤◌, [], length, IsOk, IfOk, OnOk, OnErr, IsErrOf};
ghost use Rattle.jx_io.specs.Stream.{CountedOne, Takes, TakesSome, HasEnded, Appends, AppendsPrefix};

use crate::{IoFault, ReadAllFault, Sink, Source};
use std::alloc::Global;

const CHUNK: usize = 8192;

/// Reads to the end, at most `limit` bytes, in time linear in them. It takes no more than one byte past the limit.
pub fn read_all<S: Source>(
    alloc: Global,
    source: &mut S,
    limit: usize,
) -> Result<Vec<u8>, ReadAllFault>
    ensures taken { IfOk result (λ bytes. Takes (S.left source.old) (S.left source.new) bytes.items) }
    ensures ended { OnOk result (HasEnded (S.left source.new)) }
    ensures within { IfOk result (λ bytes. length bytes.items ≤ limit) }

    // TooLong comes exactly where limit + 1 bytes were taken; after each other answer no more than the limit was.
    ensures too_long { IsErrOf result ReadAllFault.TooLong →
        TakesSome (S.left source.old) (S.left source.new) (λ bytes. length bytes ≡ limit + 1) }
    ensures not_too_long { ¬ IsErrOf result ReadAllFault.TooLong →
        TakesSome (S.left source.old) (S.left source.new) (λ bytes. length bytes ≤ limit) }

    // No read follows one that failed.
    ensures cause { IsErrOf result ReadAllFault.Fault →
        CountedOne (S.faults source.old) (S.faults source.new) }
    ensures quiet { ¬ IsErrOf result ReadAllFault.Fault → S.faults source.new ≡ S.faults source.old }
    ensures counted { S.faults source.old ≤ S.faults source.new }
{
    let mut bytes = Vec::new(alloc);
    let mut chunk = [0; CHUNK];
    loop {
        let room = limit - bytes.len();
        let want = if room < CHUNK { room + 1 } else { CHUNK };
        let count = source.read(&mut chunk[..want])?;
        if count == 0 {
            return Ok(bytes);
        }
        if count > room {
            return Err(ReadAllFault::TooLong);
        }
        bytes.extend_from_slice(&chunk[..count])?;
    }
}

/// Writes all of the text, by as many calls as it takes, and by none where it is empty.
pub fn write_whole<K: Sink>(sink: &mut K, text: &[u8]) -> Result<(), IoFault>
    ensures whole { OnOk result (Appends (K.written sink.old) (K.written sink.new) text.now) }
    ensures prefix { OnErr result (AppendsPrefix (K.written sink.old) (K.written sink.new) text.now) }
    ensures empty { text.now ≡ [] → IsOk result × (sink.new ≡ sink.old) }

    // No write follows one that failed.
    ensures cause { OnErr result (CountedOne (K.faults sink.old) (K.faults sink.new)) }
    ensures quiet { OnOk result (K.faults sink.new ≡ K.faults sink.old) }
    ensures counted { K.faults sink.old ≤ K.faults sink.new }
{
    let mut done = 0;
    while done < text.len() {
        let count = sink.write(&text[done..])?;
        done += count;
    }
    Ok(())
}
