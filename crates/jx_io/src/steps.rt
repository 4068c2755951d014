ghost use Rattle.std.specs.Prelude.{◌≡◌, ◌+◌};

use crate::tally::Tally;
use std::marker::{Model, PhantomData};

/// How many steps were taken, which contracts see as a number. It holds no bytes, and `L` names the count.
pub struct Steps<L> {
    counted: PhantomData<L>,
    tally: Tally,
}

impl<L> Model for Steps<L> {
    ghost use Rattle.std.specs.Prelude.{ℕ};

    ghost Value = { ℕ };

    ghost view = { λ s. s.tally.total };
}

impl<L> Steps<L> {
    /// No step yet.
    pub fn new() -> Steps<L>
        ensures { result ≡ 0 }
    {
        Steps {
            counted: PhantomData,
            tally: Tally::new(),
        }
    }

    /// Counts so many steps more.
    pub fn add(&mut self, n: u64)
        ensures { self.new ≡ self.old + n }
    {
        self.tally.add(n);
    }
}

impl<L> Drop for Steps<L> {
    fn drop(self) {
        let Steps {
            counted: _,
            tally: _,
        } = self;
    }
}
