ghost use Rattle.std.specs.Prelude.{◌≡◌, ◌≤◌};
ghost use Rattle.jx_io.specs.Stream.{next_count};
ghost use Rattle.jx_io.specs.declared.fault.ReadAllFault.TheVariants.{Fault, NoMemory};

use std::alloc::AllocError;
use std::marker::Model;
use thiserror::Error;

/// A call of a source or of a sink has failed, and was counted as a fault.
#[derive(Clone, Copy, Debug, PartialEq, Eq, Drop, Error)]
#[error("reading or writing failed")]
pub struct IoFault;

/// Why a source wasn't read to its end.
#[derive(Clone, Copy, Debug, PartialEq, Eq, Drop, Error)]
pub enum ReadAllFault {
    #[error("reading failed")]
    Fault,
    #[error("the input is longer than its limit")]
    TooLong,
    #[error("out of memory")]
    NoMemory,
}

impl From<IoFault> for ReadAllFault {
    ghost from_gives = { λ _ e. e ≡ Fault };

    fn from(_: IoFault) -> Self {
        ReadAllFault::Fault
    }
}

impl From<AllocError> for ReadAllFault {
    ghost from_gives = { λ _ e. e ≡ NoMemory };

    fn from(_: AllocError) -> Self {
        ReadAllFault::NoMemory
    }
}

/// A count of faults, which stands still at its type's end.
#[derive(Debug, Drop)]
pub(crate) struct Faults {
    count: u64,
}

impl Model for Faults {
    ghost use Rattle.std.specs.Prelude.{ℕ};

    ghost Value = { ℕ };

    ghost view = { λ f. f.count };
}

impl Faults {
    pub(crate) fn new() -> Faults
        ensures { result ≡ 0 }
    {
        Faults { count: 0 }
    }

    pub(crate) fn count(&self) -> u64
        ensures { result ≡ self.now }
    {
        self.count
    }

    /// Counts a fault, which the caller answers.
    pub(crate) fn raise(&mut self) -> IoFault
        ensures counts { self.new ≡ next_count self.old }
        ensures never_falls { self.old ≤ self.new }
    {
        self.count = self.count.saturating_add(1);
        IoFault
    }
}
