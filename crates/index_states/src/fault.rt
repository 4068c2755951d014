//! Why the state file wasn't read or made.
ghost use Rattle.std.specs.Prelude.{◌≡◌};
ghost use Rattle.index_states.specs.declared.fault.StateFault.TheVariants.{NoMemory, Disk as DiskFailed};

use jx_disk::DiskFault;
use std::alloc::{AllocError, AllocFailed};
use thiserror::Error;

/// Why the state file wasn't read or made.
#[derive(Clone, Copy, Debug, PartialEq, Eq, Drop, Error)]
pub enum StateFault {
    #[error("the disk failed")]
    Disk,
    #[error("out of memory")]
    NoMemory,
}

impl From<AllocError> for StateFault {
    ghost from_gives = { λ _ e. e ≡ NoMemory };

    fn from(_: AllocError) -> Self {
        StateFault::NoMemory
    }
}

impl<T: Drop> From<AllocFailed<T>> for StateFault {
    ghost from_gives = { λ _ e. e ≡ NoMemory };

    fn from(_: AllocFailed<T>) -> Self {
        StateFault::NoMemory
    }
}

impl From<DiskFault> for StateFault {
    ghost from_gives = { λ _ e. e ≡ DiskFailed };

    fn from(_: DiskFault) -> Self {
        StateFault::Disk
    }
}
