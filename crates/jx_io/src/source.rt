ghost use Rattle.std.specs.Prelude.{◌≡◌, ℕ, ◌<◌, ◌≤◌, List, length, take, Option, IfOk, OnErr};
ghost use Rattle.jx_io.specs.Stream.{CountedOne, Takes, HasEnded};

use crate::IoFault;

/// What gives bytes.
pub trait Source {
    /// The bytes that are left, where the source shows them.
    ghost left: { Self → Option (List ℕ) };

    /// How many calls have failed.
    ghost faults: { Self → ℕ };

    /// Puts the next bytes at the start of the buffer and answers how many, 0 at the end. A call that fails counts one fault.
    fn read(&mut self, buf: &mut [u8]) -> Result<usize, IoFault>
        requires { 0 < length buf.old }
        ensures within { IfOk result (λ n. n ≤ length buf.new) }
        ensures taken { IfOk result (λ n.
            Takes (left self.old) (left self.new) (take n buf.new)) }
        ensures end { IfOk result (λ n. n ≡ 0 → HasEnded (left self.old)) }
        ensures kept { OnErr result (left self.new ≡ left self.old) }
        ensures cause { OnErr result (CountedOne (faults self.old) (faults self.new)) }
        ensures quiet { IfOk result (λ _. faults self.new ≡ faults self.old) }
        ensures counted { faults self.old ≤ faults self.new };
}
