ghost use Rattle.std.specs.Prelude.{◌≡◌, ℕ, ◌<◌, ◌≤◌, List, length, take, Option, IfOk, OnErr};
ghost use Rattle.jx_io.specs.Stream.{CountedOne, Appends};

use crate::IoFault;

/// What takes bytes.
pub trait Sink {
    /// The bytes that were written, where the sink shows them.
    ghost written: { Self → Option (List ℕ) };

    /// How many calls have failed.
    ghost faults: { Self → ℕ };

    /// Appends a prefix of the piece and answers how many bytes it has. A call that fails counts one fault.
    fn write(&mut self, piece: &[u8]) -> Result<usize, IoFault>
        requires { 0 < length piece.now }
        ensures some { IfOk result (λ n. 1 ≤ n) }
        ensures within { IfOk result (λ n. n ≤ length piece.now) }
        ensures appended { IfOk result (λ n.
            Appends (written self.old) (written self.new) (take n piece.now)) }
        ensures kept { OnErr result (written self.new ≡ written self.old) }
        ensures cause { OnErr result (CountedOne (faults self.old) (faults self.new)) }
        ensures quiet { IfOk result (λ _. faults self.new ≡ faults self.old) }
        ensures counted { faults self.old ≤ faults self.new };
}
