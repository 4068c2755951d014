//! A number that only clauses read. It takes no bytes, and its calls do nothing at run time.
ghost use Rattle.std.specs.Prelude.{◌≡◌, ℕ, ◌+◌};
ghost use Rattle.std.specs.Borrow.{ftrue};

use std::marker::{Model, PhantomData};

#[derive(Drop)]
pub(crate) struct Tally {
    marker: PhantomData<()>,
    pub(crate) ghost total: { ℕ },
}

impl Model for Tally {
    ghost also_owns = { λ _. ftrue };
}

// It owns nothing, so it may go to another thread.
unsafe impl Send for Tally {}

unsafe impl Sync for Tally {}

impl Tally {
    pub(crate) fn new() -> Tally
        ensures { result.total ≡ 0 }
    {
        Tally {
            marker: PhantomData,
        }
    }

    pub(crate) fn add(&mut self, _n: u64)
        ensures { self.new.total ≡ self.old.total + _n }
    {}
}
