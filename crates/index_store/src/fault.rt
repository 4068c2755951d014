//! Why nothing was saved.
ghost use Rattle.std.specs.Prelude.{◌≡◌};
ghost use Rattle.index_store.specs.declared.fault.SaveFault.TheVariants.{NoMemory, Disk as DiskFailed};

use index_states::StateFault;
use jx_disk::DiskFault;
use std::alloc::AllocError;
use thiserror::Error;

/// Why nothing was saved.
#[derive(Clone, Copy, Debug, PartialEq, Eq, Drop, Error)]
pub enum SaveFault {
    #[error("the image is too long")]
    TooLong(u64),
    #[error("all pairs are held")]
    Full(u64),
    #[error("the container has had its last generation")]
    Worn,
    #[error("the disk failed")]
    Disk,
    #[error("out of memory")]
    NoMemory,
}

impl From<AllocError> for SaveFault {
    ghost from_gives = { λ _ e. e ≡ NoMemory };

    fn from(_: AllocError) -> Self {
        SaveFault::NoMemory
    }
}

impl From<DiskFault> for SaveFault {
    ghost from_gives = { λ _ e. e ≡ DiskFailed };

    fn from(_: DiskFault) -> Self {
        SaveFault::Disk
    }
}

/// A store wasn't opened: why, and the disk as the calls on it left it.
#[derive(Debug, Drop)]
pub struct ReopenFault<D> {
    pub disk: D,
    pub cause: StateFault,
}
